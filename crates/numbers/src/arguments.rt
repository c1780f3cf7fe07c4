// Put sorts and link states, by the numbers that the calls are given.
#![tactic(auto, unfolding(rules::specs::Rules::first))]

ghost use Rattle.std.specs.Prelude.{◌≡◌, IfOk};
ghost use Rattle.rules.specs.Outcome.{outcome_number};
ghost use Rattle.rules.specs.Rules.{first};
ghost use Rattle.numbers.specs.Tests.{sort_number, link_number, by_sort, by_link};

use layout::Sort;
use rules::Refusal;

// What link does to a station, with the numbers that the call is given.
#[derive(Clone, Copy, PartialEq, Eq)]
pub enum Link {
    Off = 0,
    On = 1,
}

pub fn sort_of(number: u64) -> Result<Sort, Refusal>
    ensures value { outcome_number result ≡ first (by_sort number) }
    ensures sort { IfOk result (λ sort. sort_number sort ≡ number) }
{
    match number {
        1 => Ok(Sort::Data),
        2 => Ok(Sort::Configuration),
        _ => Err(Refusal::NoSuchThing),
    }
}

pub fn link_of(number: u64) -> Result<Link, Refusal>
    ensures value { outcome_number result ≡ first (by_link number) }
    ensures link { IfOk result (λ link. link_number link ≡ number) }
{
    match number {
        0 => Ok(Link::Off),
        1 => Ok(Link::On),
        _ => Err(Refusal::NoSuchThing),
    }
}
