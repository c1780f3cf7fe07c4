// Station sets and configurations: the tests on them, each equal to its definition in `quorum` on any input.
#![tactic(auto)]

ghost use Rattle.std.specs.Prelude.{◌≡◌, ◌<◌, ◌≤◌};
ghost use Rattle.std.specs.Iterator.{item_count};
ghost use Rattle.quorum.specs.Sets.{rising, member, shares, within, join, unite, minus, remove, lowest, full};
ghost use Rattle.quorum.specs.Configurations.{set_at, side_sets, first_read, place_figure, holds_side};
ghost use Rattle.sets.specs.Walking.{TakesLowest};
ghost use Rattle.sets.specs.Inner.{eight, is_held, first_held, any_held};

use quorum::{CONFIG_SIZE, SIDE_SIZE, Side};

// Whether the station is in the set.
pub fn is_member(set: u16, station: usize) -> bool
    ensures { result ≡ member set station }
{
    if station < 16 {
        (set >> station) % 2 == 1
    } else {
        false
    }
}

// Whether the two sets share a station.
pub fn share_station(a: u16, b: u16) -> bool
    ensures { result ≡ shares a b }
{
    a & b != 0
}

// Whether the set names no station n or above.
pub fn is_within(set: u16, n: usize) -> bool
    ensures { result ≡ within n set }
{
    if n < 32 { (set as u32) >> n == 0 } else { true }
}

// The set with the station; there is no station 16 or above.
pub fn with_station(set: u16, station: usize) -> u16
    ensures { result ≡ join set station }
{
    if station < 16 {
        set | (1u16 << station)
    } else {
        set
    }
}

// The stations of either set.
pub fn united(a: u16, b: u16) -> u16
    ensures { result ≡ unite a b }
{
    a | b
}

// The stations of a that are not in b.
pub fn difference(a: u16, b: u16) -> u16
    ensures { result ≡ minus a b }
{
    a - (a & b)
}

// The set without the station.
pub fn without_station(set: u16, station: usize) -> u16
    ensures { result ≡ remove set station }
{
    if station < 16 {
        difference(set, 1u16 << station)
    } else {
        set
    }
}

// The lowest station of the set; 16 where it has none.
pub fn lowest(set: u16) -> usize
    ensures { result ≡ lowest set }
{
    u16::trailing_zeros(set) as usize
}

// The set without its lowest station.
pub fn without_lowest(set: u16) -> u16
    ensures { result ≡ remove set (lowest set) }
{
    if set == 0 { 0 } else { set & (set - 1) }
}

// The stations of a set, the lowest first.
#[derive(Drop)]
pub struct Stations(pub u16);

impl Iterator for Stations {
    type Item = usize;

    ghost next_gives = { TakesLowest };

    ghost remaining = { item_count (λ s. rising s.0) };

    fn next(&mut self) -> Option<usize> {
        if self.0 == 0 {
            return None;
        }
        let station = lowest(self.0);
        self.0 = without_lowest(self.0);
        Some(station)
    }
}

// The set of all of n stations, at most 16.
pub fn all_stations(n: usize) -> u16
    ensures { result ≡ full n }
{
    if n < 16 { (1u16 << n) - 1 } else { 65535 }
}

// The set at a place of a configuration.
pub fn load_set(config: &[u8; CONFIG_SIZE], place: usize) -> u16
    requires { place < 16 }
    ensures { result ≡ set_at config.now place }
{
    let at = 2 * place;
    u16::from_le_bytes([config[at], config[at + 1]])
}

// The sets of a side, by their places. They are loaded in this order, so that the compiler keeps them in one register.
pub fn load_side(config: &[u8; CONFIG_SIZE], side: Side) -> [u16; SIDE_SIZE]
    ensures { result ≡ eight (side_sets side config.now) }
{
    let start = side.start();
    let s7 = load_set(config, start + 7);
    let s6 = load_set(config, start + 6);
    let s5 = load_set(config, start + 5);
    let s4 = load_set(config, start + 4);
    let s3 = load_set(config, start + 3);
    let s2 = load_set(config, start + 2);
    let s1 = load_set(config, start + 1);
    let s0 = load_set(config, start);
    [s0, s1, s2, s3, s4, s5, s6, s7]
}

// Whether the other set is used and held by the set.
fn is_held(other: u16, set: u16) -> bool
    ensures { result ≡ is_held other set }
{
    (other != 0) & (set & other == other)
}

// Whether a used one of the sets is held by the set. No branch: it is asked more often than which set it is.
fn any_held(others: [u16; SIDE_SIZE], set: u16) -> bool
    ensures { result ≡ any_held others set }
{
    others
        .iter()
        .fold(false, |any, other| any | is_held(*other, set))
}

// The first place of a side whose set is used and held by the set.
fn first_held(others: [u16; SIDE_SIZE], set: u16) -> Option<usize>
    ensures { result ≡ first_held others set }
{
    others.iter().position(|other| is_held(*other, set))
}

// The first read place whose set the given set holds.
pub fn first_read_place(config: &[u8], set: u16) -> Option<usize>
    ensures { result ≡ first_read config.now set }
{
    let config = config.as_array()?;
    first_held(load_side(config, Side::Read), set)
}

// One plus the place, or 0.
pub fn place_figure(place: Option<usize>) -> u64
    requires { place_figure place ≤ 8 }
    ensures { result ≡ place_figure place }
{
    match place {
        Some(k) => k as u64 + 1,
        None => 0,
    }
}

// Whether the set holds a set of that side of the configuration.
pub fn holds_side(config: &[u8], side: Side, set: u16) -> bool
    ensures { result ≡ holds_side side config.now set }
{
    match config.as_array() {
        Some(config) => any_held(load_side(config, side), set),
        None => false,
    }
}
