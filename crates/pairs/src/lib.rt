// Whether one configuration is valid, tested eight pairs of its sets at once: soundness asks it of each copy.
#![tactic(auto)]

ghost use Rattle.std.specs.Prelude.{◌≡◌, ◌+◌, ◌*◌, ◌<◌, ◌≤◌};
ghost use Rattle.quorum.specs.Configurations.{side_sets, valid};
ghost use Rattle.pairs.specs.Pairs.{filled, filled_side, row_ok, rows_ok, pairs_ok, four, FourFit, outside_of, four_within};

use quorum::{CONFIG_SIZE, SIDE_SIZE, Side};
use sets::{all_stations, load_set, load_side, share_station};

// A set as the pairs are tested: an unused place is filled with all stations, which share one with every used set. One right
// before a used place stays empty and shares none, so a gap fails the test of pairs.
fn filled(set: u16, next: u16) -> u16
    ensures { result ≡ filled set next }
{
    if set | next == 0 { 65535 } else { set }
}

// The sets of a side, so filled. The pairs below are tested without an early end, so that the compiler keeps each side in one
// register and tests eight pairs at once.
fn filled_side(config: &[u8; CONFIG_SIZE], side: Side) -> [u16; SIDE_SIZE]
    ensures { result ≡ filled_side (side_sets side config.now) }
{
    let [s0, s1, s2, s3, s4, s5, s6, s7] = load_side(config, side);
    [
        filled(s0, s1),
        filled(s1, s2),
        filled(s2, s3),
        filled(s3, s4),
        filled(s4, s5),
        filled(s5, s6),
        filled(s6, s7),
        filled(s7, 0),
    ]
}

// Whether the read set shares a station with each of the write sets.
fn row_ok(writes: [u16; SIDE_SIZE], read: u16) -> bool
    ensures { result ≡ row_ok writes read }
{
    writes
        .iter()
        .fold(true, |ok, write| ok & share_station(read, *write))
}

// Whether each read set shares a station with each write set, the last read set first.
fn rows_ok(reads: [u16; SIDE_SIZE], writes: [u16; SIDE_SIZE]) -> bool
    ensures { result ≡ rows_ok reads writes }
{
    reads
        .iter()
        .rev()
        .fold(true, |ok, read| ok & row_ok(writes, *read))
}

// Whether each filled read set shares a station with each filled write set.
fn pairs_ok(config: &[u8; CONFIG_SIZE]) -> bool
    ensures { result ≡ pairs_ok config.now }
{
    rows_ok(
        filled_side(config, Side::Read),
        filled_side(config, Side::Write),
    )
}

// Four sets as one number.
fn load_four(config: &[u8; CONFIG_SIZE], place: usize) -> u64
    requires { place ≤ 12 }
    ensures value { result ≡ four config.now place }
    ensures four_fit { FourFit config.now place }
{
    load_set(config, place) as u64
        + 65536 * (load_set(config, place + 1) as u64)
        + 4294967296 * (load_set(config, place + 2) as u64)
        + 281474976710656 * (load_set(config, place + 3) as u64)
}

// Stations n to 15, four times over.
fn outside(n: usize) -> u64
    ensures { result ≡ outside_of n }
{
    281479271743489 * ((65535 - all_stations(n)) as u64)
}

// Whether four sets name no station n or above.
fn four_within(config: &[u8; CONFIG_SIZE], place: usize, n: usize) -> bool
    requires { (place ≤ 12) × (n ≤ 16) }
    ensures { result ≡ four_within n config.now place }
{
    load_four(config, place) & outside(n) == 0
}

// Whether 32 bytes are a valid configuration of n stations.
pub fn config_ok(config: &[u8; CONFIG_SIZE], n: usize) -> bool
    requires { (1 ≤ n) × (n ≤ 16) }
    ensures { result ≡ valid n config.now }
{
    if !pairs_ok(config) {
        return false;
    }
    if !(four_within(config, 0, n)
        & four_within(config, 4, n)
        & four_within(config, 8, n)
        & four_within(config, 12, n))
    {
        return false;
    }
    share_station(load_set(config, 0), load_set(config, 8))
}
