// What is stored in lent bytes.
ghost use Rattle.std.specs.Prelude.{◌≡◌, ◌+◌, ◌%◌, ◌<◌, ◌≤◌, ◌++◌, drop, length, slice_get, slice_set, take};
ghost use Rattle.std.specs.Int.{to_le_bytes, w64};

// Stores a byte, and returns the one that was there; past the end nothing is done.
pub fn replace(bytes: &mut [u8], at: u64, value: u64) -> Option<u8>
    ensures before { result ≡ slice_get bytes.old at }
    ensures after { bytes.new ≡ slice_set bytes.old at (value % 256) }
{
    let at = at as usize;
    let before = bytes.get(at).copied()?;
    bytes[at] = (value % 256) as u8;
    Some(before)
}

// Stores a number in eight bytes, the least significant first; nothing is done if they go past the end.
pub fn store(bytes: &mut [u8], at: u64, number: u64)
    ensures stored { at + 8 ≤ length bytes.old → bytes.new ≡ take at bytes.old ++ to_le_bytes w64 number ++ drop (at + 8) bytes.old }
    ensures past { length bytes.old < at + 8 → bytes.new ≡ bytes.old }
{
    let at = at as usize;
    if 8 <= bytes.len() && at <= bytes.len() - 8 {
        bytes[at..at + 8].copy_from_slice(&number.to_le_bytes());
    }
}
