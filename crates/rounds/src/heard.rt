// Whether a round that has polled some stations is heard, by what the walk over their copies has found.
#![tactic(auto, using(layout::proofs::OneWalk::generation_below, crate::proofs::Hearing::place_there, crate::proofs::Hearing::hears_there))]

ghost use Rattle.std.specs.Prelude.{◌≡◌};
ghost use Rattle.layout.specs.Newest.{heard_place, hears};
ghost use Rattle.newest.specs.Seen.{seen};
ghost use Rattle.rounds.specs.Heard.{HasFound};

use newest::copies::Copies;
use newest::{Newest, config_found, walk};
use quorum::Side;

// The first read place of the configuration found that the polled set holds: the test for heard.
pub fn read_place(copies: Copies, polled: u16, newest: Newest) -> Option<usize>
    requires { HasFound copies.table.now copies.n copies.item polled newest }
    ensures { result ≡ heard_place (seen copies.entry) polled copies.entry.n }
{
    sets::first_read_place(config_found(copies, newest), polled)
}

// Whether there is such a place, where it does not matter which: `holds_side` tests without a branch.
pub fn is_heard(copies: Copies, polled: u16, newest: Newest) -> bool
    requires { HasFound copies.table.now copies.n copies.item polled newest }
    ensures { result ≡ hears (seen copies.entry) polled copies.entry.n }
{
    sets::holds_side(config_found(copies, newest), Side::Read, polled)
}

// The read place that the stations polled hold, by a walk over their copies.
pub fn heard_place(copies: Copies, polled: u16) -> Option<usize>
    ensures { result ≡ heard_place (seen copies.entry) polled copies.entry.n }
{
    let newest = walk(copies, polled)?;
    read_place(copies, polled, newest)
}
