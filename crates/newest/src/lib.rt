// What the copies of an item at the stations of a set give: the newest by version and the newest by generation, by one walk.
#![tactic(auto)]

ghost use Rattle.std.specs.Prelude.{◌≡◌, cond, ◌<◌};
ghost use Rattle.layout.specs.Newest.{version_station, generation_station};
ghost use Rattle.layout.specs.Walk.{onward, walk, walked_version, walked_generation};
ghost use Rattle.newest.specs.Walks.{as_walked, as_option};
ghost use Rattle.newest.specs.Seen.{seen};

pub mod copies;

use copies::Copies;
use sets::Stations;
use table::copy::{Generation, Version, config_at, generation_at, version_at};

// What the walk carries: the stations of the newest copies, and the counters by which they are the newest.
#[derive(Clone, Copy)]
pub struct Newest {
    pub by_version: usize,
    pub version: Version,
    pub by_generation: usize,
    pub generation: Generation,
}

impl Newest {
    // The walk comes to station s: by each counter it takes the place of the newest so far if its own is greater.
    pub fn onward(found: Option<Newest>, copies: Copies, s: usize) -> Newest
        requires { s < copies.n }
        ensures { as_walked result ≡ onward (seen copies.entry) s (as_option found) }
    {
        let at = copies.address(s);
        let version = version_at(copies.table, at);
        let generation = generation_at(copies.table, at);
        let Some(best) = found else {
            return Newest {
                by_version: s,
                version,
                by_generation: s,
                generation,
            };
        };
        Newest {
            by_version: newer(best.version < version, s, best.by_version),
            version: best.version.max(version),
            by_generation: newer(best.generation < generation, s, best.by_generation),
            generation: best.generation.max(generation),
        }
    }
}

// The station that the walk has come to, if its copy is newer; else the newest so far.
fn newer(is_newer: bool, s: usize, best: usize) -> usize
    ensures { result ≡ cond is_newer s best }
{
    if is_newer {
        return s;
    }
    best
}

// The walk over the stations of the set below n, the lowest first: what the two searches would find, each by itself; nothing, where there
// is no station.
pub fn walk(copies: Copies, set: u16) -> Option<Newest>
    ensures walked { as_option result ≡ walk (seen copies.entry) set copies.entry.n }
    ensures version { walked_version (as_option result) ≡ version_station (seen copies.entry) set copies.entry.n }
    ensures generation { walked_generation (as_option result) ≡ generation_station (seen copies.entry) set copies.entry.n }
{
    let mut found = None;
    for s in Stations(set) {
        if copies.n <= s {
            return found;
        }
        found = Some(Newest::onward(found, copies, s));
    }
    found
}

// The configuration of the newest copy by generation.
pub fn config_found<'a>(copies: Copies<'a>, newest: Newest) -> &'a [u8]
    requires { newest.by_generation < copies.n }
    ensures { result.now ≡ (seen copies.entry newest.by_generation).config }
{
    config_at(copies.table, copies.address(newest.by_generation))
}
