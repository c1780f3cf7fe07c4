// Soundness, which every call asks first.
#![tactic(auto)]

ghost use Rattle.std.specs.Prelude.{◌≡◌, true, ◌+◌, ◌*◌, ◌≤◌, length};
ghost use Rattle.layout.specs.Layout.{head_size};
ghost use Rattle.layout.specs.Fields.{round_of};
ghost use Rattle.layout.specs.Soundness.{is_zero, sound};
ghost use Rattle.soundness.specs.Scan.{size_sound, head_sound, round_blank, rest_sound};

use layout::{COPIES_AT, COPY_SIZE, HEAD_SIZE, KIND_AT, Kind, SPARE_AT, TARGET_AT, VALUE_AT};
use sets::{is_within, share_station, united};
use table::head;
use table::number::{u32_at, u64_at};
use validity::all_valid;

// Whether the table is sound. The compiler repeats this function in every call, the tests of length and head with it, and enters
// the rest from two places: so a table with a false head is refused without another function.
pub fn is_sound(t: &[u8]) -> bool
    ensures { result ≡ sound t.now }
{
    if !size_ok(t) {
        return false;
    }
    if !head_ok(t) {
        return false;
    }
    if head::kind(t) == Some(Kind::Change) {
        return rest_ok(t, 0);
    }
    rest_ok(t, 1)
}

// Whether n and m are in range and the length fits.
fn size_ok(t: &[u8]) -> bool
    ensures { result ≡ size_sound t.now }
{
    if t.len() < HEAD_SIZE {
        return false;
    }
    let n = head::stations(t);
    let m = head::items(t);
    (t.len() == COPIES_AT + COPY_SIZE * (n * m)) & (1 <= n) & (n <= 16) & (1 <= m) & (m <= 32)
}

// Whether the rest of the head is sound, but for what the round's kind asks of it.
fn head_ok(t: &[u8]) -> bool
    requires { head_size ≤ length t.now }
    ensures { result ≡ head_sound t.now }
{
    let n = head::stations(t);
    let off = head::off_set(t);
    let data_puts = head::data_puts(t);
    let config_puts = head::config_puts(t);
    (head::kind_byte(t) <= Kind::Change as u8)
        & (head::item(t) < head::items(t))
        & is_within(
            united(united(united(off, head::polled(t)), data_puts), config_puts),
            n,
        )
        & !share_station(data_puts, off)
        & !share_station(config_puts, off)
        & (u32_at(t, SPARE_AT) == 0)
}

// Whether the round has only what its kind asks for, a change's target apart. With no round the kind's own byte is zero too.
fn round_ok(t: &[u8]) -> bool
    requires { head_size ≤ length t.now }
    ensures { result ≡ round_blank t.now (round_of t.now).kind }
{
    match head::kind(t) {
        None => blank_words(t, KIND_AT, 1) & blank_words(t, VALUE_AT, 5),
        Some(Kind::Read) => (head::data_puts(t) == 0)
            & (head::config_puts(t) == 0)
            & blank_words(t, VALUE_AT, 5),
        Some(Kind::Write) => (head::config_puts(t) == 0) & blank_words(t, TARGET_AT, 4),
        Some(Kind::Change) => head::value(t) == 0,
    }
}

// Whether the words of eight bytes from a place on, as many as the count says, are zero.
fn blank_words(t: &[u8], at: usize, count: usize) -> bool
    requires { at + 8 * count ≤ length t.now }
    ensures { result ≡ is_zero t.now at (8 * count) }
{
    t[at..at + 8 * count]
        .as_chunks::<8>()
        .0
        .iter()
        .fold(true, |ok, word| ok & (u64_at(word, 0) == 0))
}

// Whether the round has only what its kind asks for, and the configurations from number `first` on are valid. Number 0 is the target: it
// stands in the head where that of a copy stands in the copy, and the head is as long as a copy. Behind it come those of the copies.
fn rest_ok(t: &[u8], first: usize) -> bool
    requires { (size_sound t.now ≡ true) × (first ≤ 1) }
    ensures { result ≡ rest_sound t.now first }
{
    // Lent on, so that the compiler hands address and length over in registers.
    let t = &*t;
    if !round_ok(t) {
        return false;
    }
    let n = head::stations(t);
    let count = n * head::items(t) + 1 - first;
    all_valid(t, TARGET_AT + COPY_SIZE * first, COPY_SIZE, first, count, n)
}
