// Whether configurations are valid, also many of them a stride apart, as fast as every call has to: soundness asks it of each copy.
#![tactic(auto)]

ghost use Rattle.std.specs.Prelude.{◌≡◌, true, ℕ, ◌+◌, ◌-◌, ◌*◌, ◌<◌, ◌≤◌, length};
ghost use Rattle.basics.specs.Bytes.{part};
ghost use Rattle.quorum.specs.Configurations.{config_size, valid};
ghost use Rattle.validity.specs.Rows.{valid_to, same_again, same_lane, same_block, StillValid};

use layout::COPY_SIZE;
use pairs::config_ok;
use quorum::CONFIG_SIZE;

// The 32 bytes at a place.
fn config_at(bytes: &[u8], at: usize) -> &[u8; CONFIG_SIZE]
    requires { at + config_size ≤ length bytes.now }
    ensures { result.now ≡ part bytes.now at config_size }
{
    bytes[at..at + CONFIG_SIZE].as_array().unwrap()
}

// Whether the 32 bytes at a place are those a stride further on.
fn same_again(bytes: &[u8], at: usize, stride: usize) -> bool
    requires { at + stride + config_size ≤ length bytes.now }
    ensures { result ≡ same_again bytes.now at stride }
{
    config_at(bytes, at + stride) == config_at(bytes, at)
}

// Whether the byte at a place is the same one stride further on, two, and so on to eight.
fn same_lane(bytes: &[u8], at: usize, stride: usize) -> bool
    requires { (at < length bytes.now) × ((j : ℕ) → j < 8 → at + stride + stride * j < length bytes.now) }
    ensures { result ≡ same_lane bytes.now at stride }
{
    let mut ok = true;
    for j in 0..8usize {
        ok = ok & (bytes[at + stride + stride * j] == bytes[at]);
    }
    ok
}

// The same for the 32 bytes at a place. No byte is skipped, so that the compiler compares sixteen at once.
fn same_block(bytes: &[u8], at: usize, stride: usize) -> bool
    requires { (at + config_size ≤ length bytes.now) × ((j : ℕ) → j < 8 → at + stride + stride * j + config_size ≤ length bytes.now) }
    ensures { result ≡ same_block bytes.now at stride }
{
    let mut ok = true;
    for b in 0..CONFIG_SIZE {
        ok = ok & same_lane(bytes, at + b, stride);
    }
    ok
}

// Configurations that stand a stride apart in the bytes, from a place on. The first of them has number 0 or 1.
#[derive(Clone, Copy)]
struct Row<'a> {
    bytes: &'a [u8],
    at: usize,
    stride: usize,
    first: usize,
    count: usize,
    ghost fits: { (count ≤ 1024) × (first ≤ 1) × ((k : ℕ) → k < count → at + stride * k + config_size ≤ length bytes.now) },
}

impl Row<'_> {
    // The number of the first configuration, from one on, that may differ from the one before it: past those that are the same, eight at
    // a time. This is tried once in eight, whether the row begins with its number 0 or 1.
    fn past_eights(self, from: usize) -> usize
        requires { (1 ≤ from) × (from ≤ self.count) }
        ensures { (from ≤ result) × (result ≤ self.entry.count) × StillValid self.entry.bytes.now self.entry.at self.entry.stride from result }
    {
        if (from + self.first) % 8 != 3 {
            return from;
        }
        let mut k = from;
        while k + 8 <= self.count {
            if !same_block(self.bytes, self.at + self.stride * (k - 1), self.stride) {
                return k;
            }
            k = k + 8;
        }
        k
    }

    // The number of the first configuration, from one on, that differs from the one before it; the count where none does.
    fn past_same(self, from: usize) -> usize
        requires { (1 ≤ from) × (from ≤ self.count) }
        ensures { (from ≤ result) × (result ≤ self.entry.count) × StillValid self.entry.bytes.now self.entry.at self.entry.stride from result }
    {
        let mut k = from;
        while k < self.count {
            if !same_again(self.bytes, self.at + self.stride * (k - 1), self.stride) {
                return k;
            }
            k = self.past_eights(k + 1);
        }
        k
    }
}

// Whether so many configurations that stand a stride apart, from a place on, are valid. One that is the same as the one before it is
// not tested again. The first of them has number 0 or 1 in its row. Not a method: a row by value goes through memory, and then the
// compiler does not see that the stride is the same constant in each call.
pub fn all_valid(
    bytes: &[u8],
    at: usize,
    stride: usize,
    first: usize,
    count: usize,
    n: usize,
) -> bool
    requires { (1 ≤ n) × (n ≤ 16) × (count ≤ 1024) × (first ≤ 1) × ((k : ℕ) → k < count → at + stride * k + config_size ≤ length bytes.now) }
    ensures { result ≡ valid_to n bytes.now at stride count }
{
    // Lent on, so that the compiler hands address and length over in registers.
    let bytes = &*bytes;
    let row = Row {
        bytes,
        at,
        stride,
        first,
        count,
    };
    let mut k = 0;
    while k < count {
        let place = at + stride * k;
        let config = bytes[place..place + CONFIG_SIZE].as_array().unwrap();
        if !config_ok(config, n) {
            return false;
        }
        k = row.past_same(k + 1);
    }
    true
}

// Whether the bytes are a valid configuration of n stations. With one configuration the stride does not matter: it is that of a table's
// copies, so that the compiler has one number for it.
pub fn is_valid(config: &[u8], n: usize) -> bool
    ensures { result ≡ valid n config.now }
{
    if config.len() != CONFIG_SIZE {
        return false;
    }
    if n == 0 {
        return false;
    }
    if 16 < n {
        return false;
    }
    all_valid(config, 0, COPY_SIZE, 1, 1, n)
}
