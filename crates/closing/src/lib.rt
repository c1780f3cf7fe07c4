// Commit's outcome and diagnose's figures on a sound table with an open round: one walk over the polled copies, and what it has found is handed on. Nothing
// is changed here.
#![tactic(auto, using(layout::proofs::Soundness::sound_head, crate::proofs::RoundFound::generation_there, crate::proofs::RoundFound::version_there))]

ghost use Rattle.std.specs.Prelude.{◌≡◌, IfOk};
ghost use Rattle.layout.specs.View.{view};
ghost use Rattle.layout.specs.declared.Kind.TheVariants.{Write, Change};
ghost use Rattle.table.specs.Kinds.{opened_kind};
ghost use Rattle.rules.specs.Calls.{commit, diagnose};
ghost use Rattle.rules.specs.Figures.{closing, diagnosis};
ghost use Rattle.rules.specs.Outcome.{outcome_number, reply_to};
ghost use Rattle.rules.specs.Reply.{reply};
ghost use Rattle.rules.specs.Rules.{first};
ghost use Rattle.rounds.specs.Heard.{OwnFound};
ghost use Rattle.numbers.specs.Tests.{by_heard};
ghost use Rattle.closing.specs.Closing.{OpenRound, HeardAt, VersionFound, GenerationFound, VersionAt, closing_number};

use layout::Kind;
use newest::Newest;
use numbers::alone::check_last;
use quorum::Side;
use rounds::found::{round_copy, round_found, round_is_heard, round_place};
use rounds::sound::Sound;
use rules::{Figures, Refusal, number_of};
use table::copy::{Generation, Version, config_at, value_at};
use table::head::{config_puts, data_puts, target, value};

// The outcome of a commit, by the kind of the open round.
pub fn commit_outcome(table: Sound, kind: Kind) -> Result<Figures, Refusal>
    requires { OpenRound table.bytes.now kind }
    ensures { reply_to result ≡ reply table.entry.bytes.now commit }
{
    let newest = heard_copies(table)?;
    let g = round_copy(table, newest.by_generation);
    check_closing(table, kind, newest.version, newest.generation, g)?;
    let b = round_copy(table, newest.by_version);
    Ok(closed(table, kind, newest.version, newest.generation, b))
}

// What the open round has found, if it is heard: `check_heard` once more, so that the compiler joins each to its one caller.
#[tactic(auto, unfolding(rules::specs::Rules::first, layout::specs::View::view))]
fn heard_copies(table: Sound) -> Result<Newest, Refusal>
    ensures value { outcome_number result ≡ first (by_heard (view table.entry.bytes.now)) }
    ensures found { IfOk result (λ newest. OwnFound table.entry.bytes.now newest) }
{
    let Some(newest) = round_found(table) else {
        return Err(Refusal::Unheard);
    };
    if !round_is_heard(table, newest) {
        return Err(Refusal::Unheard);
    }
    Ok(newest)
}

// What holds the round up: commit's number, one plus the station that gave the version, or 0, and one plus the read place held, or 0.
pub fn diagnosed(table: Sound, kind: Kind) -> Figures
    requires { OpenRound table.bytes.now kind }
    ensures { result ≡ diagnosis (view table.entry.bytes.now) }
{
    let Some(newest) = round_found(table) else {
        return Figures::one(Refusal::Unheard.number());
    };
    let station = newest.by_version as u64 + 1;
    let place = round_place(table, newest);
    if !place.is_some() {
        return diagnosis(Refusal::Unheard.number(), station, 0);
    }
    let g = round_copy(table, newest.by_generation);
    let outcome = check_closing(table, kind, newest.version, newest.generation, g);
    diagnosis(number_of(outcome), station, sets::place_figure(place))
}

fn diagnosis(number: u64, station: u64, place: u64) -> Figures
    ensures { result ≡ record { first = number; second = station; third = place } }
{
    Figures {
        first: number,
        second: station,
        third: place,
    }
}

// Commit's last tests, of a heard round, for commit and for diagnose. The counters found are handed on, and where the copy starts that gives the
// configuration: as numbers, since the compiler does not join this function to both, and a struct would go through memory.
fn check_closing(
    table: Sound,
    kind: Kind,
    version: Version,
    generation: Generation,
    g: usize,
) -> Result<(), Refusal>
    requires { HeardAt table.bytes.now kind g × VersionFound table.bytes.now version.0 × GenerationFound table.bytes.now generation.0 }
    ensures { outcome_number result ≡ closing_number table.entry.bytes.now }
{
    match kind {
        Kind::Read => Ok(()),
        Kind::Write => check_write(table, version, g),
        Kind::Change => check_change(table, generation, g),
    }
}

// Of a write: its version can be raised, and its data puts hold a write set of the configuration found.
fn check_write(table: Sound, version: Version, g: usize) -> Result<(), Refusal>
    requires { HeardAt table.bytes.now Write g × VersionFound table.bytes.now version.0 }
    ensures { outcome_number result ≡ closing_number table.entry.bytes.now }
{
    check_last(version)?;
    if !sets::holds_side(
        config_at(table.bytes, g),
        Side::Write,
        data_puts(table.bytes),
    ) {
        return Err(Refusal::Short);
    }
    Ok(())
}

// Of a change: its generation can be raised, its data puts hold a write set of the target, and its configuration puts one of the configuration found.
fn check_change(table: Sound, generation: Generation, g: usize) -> Result<(), Refusal>
    requires { HeardAt table.bytes.now Change g × GenerationFound table.bytes.now generation.0 }
    ensures { outcome_number result ≡ closing_number table.entry.bytes.now }
{
    check_last(generation)?;
    if !sets::holds_side(target(table.bytes), Side::Write, data_puts(table.bytes)) {
        return Err(Refusal::Short);
    }
    if !sets::holds_side(
        config_at(table.bytes, g),
        Side::Write,
        config_puts(table.bytes),
    ) {
        return Err(Refusal::Short);
    }
    Ok(())
}

// Value, version and generation after a round that a commit closes; the newest copy by version starts at b.
fn closed(table: Sound, kind: Kind, version: Version, generation: Generation, b: usize) -> Figures
    requires is_open { OpenRound table.bytes.now kind }
    requires version { VersionFound table.bytes.now version.0 }
    requires generation { GenerationFound table.bytes.now generation.0 }
    requires value { VersionAt table.bytes.now b }
    requires passed { closing_number table.bytes.now ≡ 0 }
    ensures { result ≡ closing (view table.entry.bytes.now) (opened_kind kind) }
{
    match kind {
        Kind::Read => after(value_at(table.bytes, b), version, generation),
        Kind::Write => after(value(table.bytes), version.next(), generation),
        Kind::Change => after(value_at(table.bytes, b), version, generation.next()),
    }
}

fn after(value: u64, version: Version, generation: Generation) -> Figures
    ensures { result ≡ record { first = value; second = version.0; third = generation.0 } }
{
    Figures {
        first: value,
        second: version.0,
        third: generation.0,
    }
}
