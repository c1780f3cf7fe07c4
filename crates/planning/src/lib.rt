// How many polls and puts a round will take: the stations on the bus, taken the lowest first, until enough are polled, and again until enough are written.
#![tactic(auto, using(layout::proofs::Soundness::sound_head, layout::proofs::OneWalk::generation_below))]

ghost use Rattle.std.specs.Prelude.{◌≡◌, true};
ghost use Rattle.quorum.specs.Sets.{within};
ghost use Rattle.quorum.specs.Configurations.{place_figure, holds_write};
ghost use Rattle.newest.specs.Seen.{seen};
ghost use Rattle.plan.specs.Starts.{rising, first_start};
ghost use Rattle.rules.specs.Calls.{plan};
ghost use Rattle.rules.specs.Outcome.{reply_to};
ghost use Rattle.rules.specs.Reply.{reply};
ghost use Rattle.planning.specs.Planning.{Says};

use newest::copies::Copies;
use newest::{Newest, config_found};
use numbers::alone::check_item;
use quorum::Side;
use rounds::heard::is_heard;
use rounds::sound::Sound;
use rules::{Figures, Refusal};
use sets::Stations;
use table::head::{on_bus, stations};

// After how many polls a round is first heard, and the newest copies then.
#[derive(Clone, Copy)]
pub struct FirstHeard {
    pub polls: u64,
    pub newest: Newest,
}

// The first start of the rising order that is heard, if one is: the walk over the stations on the bus, which asks at each.
fn first_heard(copies: Copies, on: u16) -> Option<FirstHeard>
    requires { within copies.n on ≡ true }
    ensures { Says (seen copies.entry) copies.entry.n on result }
{
    let mut polled = 0u16;
    let mut found = None;
    for (before, s) in Stations(on).enumerate() {
        polled = sets::with_station(polled, s);
        let newest = Newest::onward(found, copies, s);
        found = Some(newest);
        if is_heard(copies, polled, newest) {
            return Some(FirstHeard {
                polls: before as u64 + 1,
                newest,
            });
        }
    }
    None
}

// How many stations, from the start of the rising order, hold a write set of the configuration; 0 where even all of them hold none.
fn puts_needed(config: &[u8], on: u16) -> u64
    ensures { result ≡ place_figure (first_start (holds_write config.now) (rising on)) }
{
    let mut written = 0u16;
    for (before, s) in Stations(on).enumerate() {
        written = sets::with_station(written, s);
        if sets::holds_side(config, Side::Write, written) {
            return before as u64 + 1;
        }
    }
    0
}

// How many polls and how many puts. Nothing is changed, and an open round does not matter.
pub fn plan_on(table: Sound, i: u64) -> Result<Figures, Refusal>
    ensures { reply_to result ≡ reply table.entry.bytes.now (plan i) }
{
    check_item(table, i)?;
    let copies = Copies {
        table: table.bytes,
        n: stations(table.bytes),
        item: i as usize,
    };
    let on = on_bus(table.bytes);
    let Some(first) = first_heard(copies, on) else {
        return Err(Refusal::OutOfHearing);
    };
    Ok(Figures {
        first: first.polls,
        second: puts_needed(config_found(copies, first.newest), on),
        third: 0,
    })
}
