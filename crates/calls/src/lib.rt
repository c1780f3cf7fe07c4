// Poll, put, commit, link, reach and diagnose, on a sound table: each makes its tests, and if they pass does what it is for.
#![tactic(auto, using(layout::proofs::Soundness::sound_head, layout::proofs::OneWalk::generation_below))]

ghost use Rattle.std.specs.Prelude.{◌≡◌, true, ◌<◌};
ghost use Rattle.layout.specs.Fields.{items};
ghost use Rattle.layout.specs.Soundness.{sound};
ghost use Rattle.layout.specs.View.{view};
ghost use Rattle.rules.specs.Calls.{poll, put, commit, link, reach, diagnose};
ghost use Rattle.rules.specs.Figures.{reach_figure};
ghost use Rattle.rules.specs.Outcome.{plain_reply, reply_to};
ghost use Rattle.rules.specs.Reply.{reply, after};

use closing::{commit_outcome, diagnosed};
use newest::copies::Copies;
use newest::{config_found, walk};
use numbers::alone::{check_item, check_open_round};
use numbers::arguments::Link;
use numbers::checks::{check_link, check_poll, check_put};
use quorum::Side;
use rounds::heard::{heard_place, is_heard};
use rounds::round::Round;
use rounds::sound::Sound;
use rules::{Figures, Refusal};
use table::copy::Counter;
use table::head::{off_set, on_bus, set_off, set_polled, set_puts, stations};
use writes::finish;

pub fn poll_on(t: &mut [u8], station: u64) -> Result<Figures, Refusal>
    requires { sound t.old ≡ true }
    ensures value { reply_to result ≡ reply t.old (poll station) }
    ensures table_after { t.new ≡ after t.old (poll station) }
{
    let table = Sound { bytes: t };
    check_poll(table, station)?;
    let round = Round::of(t).poll(station as usize);
    let copies = Copies {
        table: t,
        n: stations(t),
        item: round.item,
    };
    let place = heard_place(copies, round.polled);
    set_polled(t, round.polled);
    Ok(Figures::one(sets::place_figure(place)))
}

pub fn put_on(t: &mut [u8], station: u64, sort: u64) -> Result<(), Refusal>
    requires { sound t.old ≡ true }
    ensures value { plain_reply result ≡ reply t.old (put station sort) }
    ensures table_after { t.new ≡ after t.old (put station sort) }
{
    let table = Sound { bytes: t };
    let listed = check_put(table, station, sort)?;
    let round = Round::of(t).put(station as usize, listed);
    set_puts(t, round.data_puts, round.config_puts);
    Ok(())
}

pub fn commit_on(t: &mut [u8]) -> Result<Figures, Refusal>
    requires { sound t.old ≡ true }
    ensures value { reply_to result ≡ reply t.old commit }
    ensures table_after { t.new ≡ after t.old commit }
{
    let table = Sound { bytes: t };
    let kind = check_open_round(table)?;
    let figures = commit_outcome(table, kind)?;
    let version = Counter(figures.second);
    let generation = Counter(figures.third);
    finish(
        t,
        stations(t),
        Round::of(t),
        figures.first,
        version,
        generation,
    );
    Ok(figures)
}

pub fn link_on(t: &mut [u8], station: u64, state: u64) -> Result<(), Refusal>
    requires { sound t.old ≡ true }
    ensures value { plain_reply result ≡ reply t.old (link station state) }
    ensures table_after { t.new ≡ after t.old (link station state) }
{
    let table = Sound { bytes: t };
    let listed = check_link(table, station, state)?;
    let s = station as usize;
    let round = Round::of(t);
    let off = off_set(t);
    match listed {
        Link::Off => {
            let left = round.drop(s);
            set_off(t, sets::with_station(off, s));
            set_puts(t, left.data_puts, left.config_puts);
            Ok(())
        }
        Link::On => {
            set_off(t, sets::without_station(off, s));
            set_puts(t, round.data_puts, round.config_puts);
            Ok(())
        }
    }
}

// What the stations on the bus can do by the configuration that polling them all finds: 1 read, 3 also write, 0 neither.
fn reach_figure(table: Sound, i: usize) -> u64
    requires { i < items table.bytes.now }
    ensures { result ≡ reach_figure (view table.entry.bytes.now) i }
{
    let copies = Copies {
        table: table.bytes,
        n: stations(table.bytes),
        item: i,
    };
    let on = on_bus(table.bytes);
    let Some(newest) = walk(copies, on) else {
        return 0;
    };
    if !is_heard(copies, on, newest) {
        return 0;
    }
    if !sets::holds_side(config_found(copies, newest), Side::Write, on) {
        return 1;
    }
    3
}

pub fn reach_on(table: Sound, i: u64) -> Result<Figures, Refusal>
    ensures { reply_to result ≡ reply table.entry.bytes.now (reach i) }
{
    check_item(table, i)?;
    Ok(Figures::one(reach_figure(table, i as usize)))
}

// What holds a round up: commit's number, the station that gave the version, the read place held. Nothing is changed.
pub fn diagnose_on(table: Sound) -> Result<Figures, Refusal>
    ensures { reply_to result ≡ reply table.entry.bytes.now diagnose }
{
    let kind = check_open_round(table)?;
    Ok(diagnosed(table, kind))
}
