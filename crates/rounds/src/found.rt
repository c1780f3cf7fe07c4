// What the open round of a sound table has found: one walk over its polled copies, and what is asked of the newest.
#![tactic(auto, using(layout::proofs::Soundness::sound_head))]

ghost use Rattle.std.specs.Prelude.{◌≡◌, ◌<◌};
ghost use Rattle.layout.specs.Layout.{address};
ghost use Rattle.layout.specs.Fields.{stations, round_of};
ghost use Rattle.layout.specs.View.{view, read_place, heard};
ghost use Rattle.newest.specs.Walks.{as_option};
ghost use Rattle.rounds.specs.Heard.{own_walk, OwnFound};

use crate::heard::{is_heard, read_place};
use crate::sound::Sound;
use newest::copies::Copies;
use newest::{Newest, walk};
use table::head::{item, polled, stations};

// The copies of its item.
fn own_copies(table: Sound<'_>) -> Copies<'_>
    ensures table { result.table.now ≡ table.entry.bytes.now }
    ensures n { result.n ≡ stations table.entry.bytes.now }
    ensures item { result.item ≡ (round_of table.entry.bytes.now).item }
{
    Copies {
        table: table.bytes,
        n: stations(table.bytes),
        item: item(table.bytes),
    }
}

// The newest of its polled copies.
#[tactic(auto, using(layout::proofs::Soundness::sound_head, crate::proofs::Hearing::own_found, crate::proofs::Hearing::own_walked))]
pub fn round_found(table: Sound) -> Option<Newest>
    ensures { as_option result ≡ own_walk table.entry.bytes.now }
{
    walk(own_copies(table), polled(table.bytes))
}

// Whether it is heard.
#[tactic(auto, using(layout::proofs::Soundness::sound_head, crate::proofs::Hearing::own_found, crate::proofs::Hearing::own_heard))]
pub fn round_is_heard(table: Sound, newest: Newest) -> bool
    requires { OwnFound table.bytes.now newest }
    ensures { result ≡ heard (view table.entry.bytes.now) }
{
    is_heard(own_copies(table), polled(table.bytes), newest)
}

// The read place that it holds.
#[tactic(auto, using(layout::proofs::Soundness::sound_head, crate::proofs::Hearing::own_found, crate::proofs::Hearing::own_place))]
pub fn round_place(table: Sound, newest: Newest) -> Option<usize>
    requires { OwnFound table.bytes.now newest }
    ensures { result ≡ read_place (view table.entry.bytes.now) }
{
    read_place(own_copies(table), polled(table.bytes), newest)
}

// Where the copy of its item at a station starts.
pub fn round_copy(table: Sound, s: usize) -> usize
    requires { s < stations table.bytes.now }
    ensures { result ≡ address (stations table.entry.bytes.now) (round_of table.entry.bytes.now).item s }
{
    own_copies(table).address(s)
}
