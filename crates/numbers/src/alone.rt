// Single tests, that the calls share.
#![tactic(auto, using(layout::proofs::Soundness::sound_head), unfolding(rules::specs::Rules::first, rules::specs::Rules::tests, layout::specs::View::view))]

ghost use Rattle.std.specs.Prelude.{◌≡◌, cond, drop, IfOk};
ghost use Rattle.layout.specs.View.{State, view};
ghost use Rattle.table.specs.Kinds.{opened_kind};
ghost use Rattle.rounds.specs.Heard.{OwnFound};
ghost use Rattle.rules.specs.Calls.{put, abandon, reach};
ghost use Rattle.rules.specs.Outcome.{outcome_number};
ghost use Rattle.rules.specs.Rules.{first, last, reading_over, tests};
ghost use Rattle.numbers.specs.Tests.{sort_number, by_station, by_target, by_busy, by_off, by_heard, Stands};

use layout::{Kind, Sort};
use newest::Newest;
use rounds::found::{round_found, round_is_heard};
use rounds::sound::Sound;
use rules::Refusal;
use table::copy::Counter;
use table::head::{config_puts, data_puts, items, kind, off_set, stations};

pub fn check_station(table: Sound, s: u64) -> Result<(), Refusal>
    ensures { outcome_number result ≡ first (by_station (view table.entry.bytes.now) s) }
{
    if stations(table.bytes) as u64 <= s {
        return Err(Refusal::NoSuchThing);
    }
    Ok(())
}

// Of reach, and plan's first test: whether the item is there.
pub fn check_item(table: Sound, i: u64) -> Result<(), Refusal>
    ensures { outcome_number result ≡ first (tests (view table.entry.bytes.now) (reach i)) }
{
    if items(table.bytes) as u64 <= i {
        return Err(Refusal::NoSuchThing);
    }
    Ok(())
}

// Of abandon and of diagnose, and commit's first test: the kind of the open round, if one is open.
pub fn check_open_round(table: Sound) -> Result<Kind, Refusal>
    ensures value { outcome_number result ≡ first (tests (view table.entry.bytes.now) abandon) }
    ensures kind { IfOk result (λ kind. opened_kind kind ≡ (view table.entry.bytes.now).round.kind) }
{
    kind(table.bytes).ok_or(Refusal::Idle)
}

pub fn check_no_round(table: Sound) -> Result<(), Refusal>
    ensures { outcome_number result ≡ first (by_busy (view table.entry.bytes.now)) }
{
    match kind(table.bytes) {
        Some(_) => Err(Refusal::Busy),
        None => Ok(()),
    }
}

// Whether the target is valid.
pub fn check_target(table: Sound, target: &[u8]) -> Result<(), Refusal>
    ensures { outcome_number result ≡ first (by_target (view table.entry.bytes.now) target.now) }
{
    if !validity::is_valid(target, stations(table.bytes)) {
        return Err(Refusal::FalseConfiguration);
    }
    Ok(())
}

pub fn check_on_the_bus(table: Sound, s: u64) -> Result<(), Refusal>
    ensures { outcome_number result ≡ first (by_off (view table.entry.bytes.now) s) }
{
    if sets::is_member(off_set(table.bytes), s as usize) {
        return Err(Refusal::OffTheBus);
    }
    Ok(())
}

// Whether a put set is not empty.
pub fn has_puts(table: Sound) -> bool
    ensures { result ≡ reading_over (view table.entry.bytes.now) }
{
    (data_puts(table.bytes) != 0) | (config_puts(table.bytes) != 0)
}

// What the open round has found, if it is heard.
pub fn check_heard(table: Sound) -> Result<Newest, Refusal>
    ensures value { outcome_number result ≡ first (by_heard (view table.entry.bytes.now)) }
    ensures found { IfOk result (λ newest. OwnFound table.entry.bytes.now newest) }
{
    let Some(newest) = round_found(table) else {
        return Err(Refusal::Unheard);
    };
    if !round_is_heard(table, newest) {
        return Err(Refusal::Unheard);
    }
    Ok(newest)
}

// Whether the counter to be raised is the last.
pub fn check_last<const OF_CONFIGURATION: bool>(
    counter: Counter<OF_CONFIGURATION>,
) -> Result<(), Refusal>
    ensures { outcome_number result ≡ cond (last counter.entry.0) 10 0 }
{
    if counter.is_last() {
        return Err(Refusal::Spent);
    }
    Ok(())
}

// The last tests of a put, by the kind of the open round and what it has found.
pub fn check_put_kind(kind: Kind, sort: Sort, newest: Newest) -> Result<(), Refusal>
    ensures { (v : State) → Stands v kind newest → outcome_number result ≡ first (drop 4 (tests v (put 0 (sort_number sort)))) }
{
    match (kind, sort) {
        (Kind::Read, _) | (Kind::Write, Sort::Configuration) => Err(Refusal::WrongPut),
        (Kind::Write, Sort::Data) => check_last(newest.version),
        (Kind::Change, Sort::Data) => Ok(()),
        (Kind::Change, Sort::Configuration) => check_last(newest.generation),
    }
}
