// The tests of each call, in their order.
#![tactic(auto, using(rules::proofs::Outcomes::refusal_some), unfolding(rules::specs::Rules::first, rules::specs::Rules::tests))]

ghost use Rattle.std.specs.Prelude.{◌≡◌, IfOk};
ghost use Rattle.layout.specs.View.{view};
ghost use Rattle.rules.specs.Calls.{lay, open_read, open_change, poll, put, link};
ghost use Rattle.rules.specs.Outcome.{outcome_number};
ghost use Rattle.rules.specs.Rules.{first, tests};
ghost use Rattle.numbers.specs.Tests.{sort_number, link_number};

use crate::alone::{
    check_heard, check_item, check_no_round, check_on_the_bus, check_open_round, check_put_kind,
    check_station, check_target, has_puts,
};
use crate::arguments::{Link, link_of, sort_of};
use layout::Sort;
use rounds::sound::Sound;
use rules::Refusal;
use table::head::lay_length;

// Open read, and open write alike.
pub fn check_open(table: Sound, i: u64) -> Result<(), Refusal>
    ensures { outcome_number result ≡ first (tests (view table.entry.bytes.now) (open_read i)) }
{
    check_item(table, i)?;
    check_no_round(table)
}

pub fn check_open_change(table: Sound, i: u64, target: &[u8]) -> Result<(), Refusal>
    ensures { outcome_number result ≡ first (tests (view table.entry.bytes.now) (open_change i target.now)) }
{
    check_item(table, i)?;
    check_target(table, target)?;
    check_no_round(table)
}

pub fn check_poll(table: Sound, s: u64) -> Result<(), Refusal>
    ensures { outcome_number result ≡ first (tests (view table.entry.bytes.now) (poll s)) }
{
    check_station(table, s)?;
    check_open_round(table)?;
    check_on_the_bus(table, s)?;
    if has_puts(table) {
        return Err(Refusal::ReadingOver);
    }
    Ok(())
}

// The sort, if the put is allowed.
pub fn check_put(table: Sound, s: u64, sort: u64) -> Result<Sort, Refusal>
    ensures value { outcome_number result ≡ first (tests (view table.entry.bytes.now) (put s sort)) }
    ensures sort { IfOk result (λ listed. sort_number listed ≡ sort) }
{
    check_station(table, s)?;
    let listed = sort_of(sort)?;
    let kind = check_open_round(table)?;
    check_on_the_bus(table, s)?;
    let newest = check_heard(table)?;
    check_put_kind(kind, listed, newest)?;
    Ok(listed)
}

// What link is to do, if it is listed.
pub fn check_link(table: Sound, s: u64, state: u64) -> Result<Link, Refusal>
    ensures value { outcome_number result ≡ first (tests (view table.entry.bytes.now) (link s state)) }
    ensures link { IfOk result (λ listed. link_number listed ≡ state) }
{
    check_station(table, s)?;
    link_of(state)
}

// Lay looks at nothing but its arguments and the table's length; its value does not matter here.
pub fn check_lay(t: &[u8], n: u64, m: u64, config: &[u8]) -> Result<(), Refusal>
    ensures { outcome_number result ≡ first (tests (view t.now) (lay n m 0 config.now)) }
{
    let need = lay_length(n, m).ok_or(Refusal::NoSuchThing)?;
    if t.len() != need {
        return Err(Refusal::Unsound);
    }
    if !validity::is_valid(config, n as usize) {
        return Err(Refusal::FalseConfiguration);
    }
    Ok(())
}
