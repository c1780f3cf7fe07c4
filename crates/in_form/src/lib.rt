// Whether a configuration is in its standard form already (document 02, 2026-06): most are, and need no work then.
#![tactic(auto)]

ghost use Rattle.std.specs.Prelude.{◌≡◌, true, ◌↔◌, ℕ};
ghost use Rattle.quorum.specs.Configurations.{side_sets, valid};
ghost use Rattle.form.specs.Form.{standard_form};
ghost use Rattle.in_form.specs.InForm.{any_within, none_within, InForm};

use quorum::{CONFIG_SIZE, SIDE_SIZE, Side};
use sets::load_side;

// Whether one of the sets lies within the set. No branch: sets come in any order, so it would often be foreseen wrongly.
fn any_within(others: &[u16], set: u16) -> bool
    ensures { result ≡ any_within others.now set }
{
    others
        .iter()
        .fold(false, |any, other| any | (set & *other == *other))
}

// Whether none of the sets lies within the set.
pub fn none_within(others: &[u16], set: u16) -> bool
    ensures { result ≡ none_within others.now set }
{
    !any_within(others, set)
}

// Whether a side is in its form: its sets rise, and none lies within a later one. An unused place ends a valid side.
fn side_in_form(config: &[u8; CONFIG_SIZE], side: Side) -> bool
    ensures { (result ≡ true) ↔ InForm (side_sets side config.now) }
{
    let sets = load_side(config, side);
    let mut last = sets[0];
    for k in 1..SIDE_SIZE {
        let set = sets[k];
        if set == 0 {
            return true;
        }
        if set <= last {
            return false;
        }
        if !none_within(&sets[..k], set) {
            return false;
        }
        last = set;
    }
    true
}

// Whether a valid configuration is its own standard form as it is given.
pub fn is_form(config: &[u8; CONFIG_SIZE]) -> bool
    requires { (n : ℕ) × (valid n config.now ≡ true) }
    ensures { (result ≡ true) ↔ (standard_form 16 config.now ≡ config.now) }
{
    side_in_form(config, Side::Read) && side_in_form(config, Side::Write)
}
