// Numbers in the bytes of a list, least significant byte first, and runs of bytes.
ghost use Rattle.std.specs.Prelude.{◌≡◌, ◌∷◌, ◌+◌, ◌≤◌, ◌<◌, length, replicate};
ghost use Rattle.basics.specs.Bytes.{part, number, bytes_of, over};
ghost use Rattle.quorum.specs.Configurations.{config_size};

use quorum::CONFIG_SIZE;

// The number in one byte.
pub fn byte_at(t: &[u8], at: usize) -> usize
    requires { at < length t.now }
    ensures { result ≡ number t.now at 1 }
{
    t[at] as usize
}

// The bytes from a place on, as many as the array has.
pub fn bytes_at<const N: usize>(t: &[u8], at: usize) -> [u8; N]
    requires { at + N ≤ length t.now }
    ensures { result ≡ part t.now at N }
{
    let mut bytes = [0u8; N];
    bytes.copy_from_slice(&t[at..at + N]);
    bytes
}

// The number in two bytes. This and the next two are each one load of the machine.
pub fn u16_at(t: &[u8], at: usize) -> u16
    requires { at + 2 ≤ length t.now }
    ensures { result ≡ number t.now at 2 }
{
    u16::from_le_bytes(bytes_at(t, at))
}

pub fn u32_at(t: &[u8], at: usize) -> u32
    requires { at + 4 ≤ length t.now }
    ensures { result ≡ number t.now at 4 }
{
    u32::from_le_bytes(bytes_at(t, at))
}

pub fn u64_at(t: &[u8], at: usize) -> u64
    requires { at + 8 ≤ length t.now }
    ensures { result ≡ number t.now at 8 }
{
    u64::from_le_bytes(bytes_at(t, at))
}

// Writes the bytes of an array.
pub fn put_bytes<const N: usize>(t: &mut [u8], at: usize, bytes: [u8; N])
    requires { at + N ≤ length t.old }
    ensures { t.new ≡ over t.old at bytes.entry }
{
    t[at..at + N].copy_from_slice(&bytes)
}

// Writes the bytes of a number. This and the next are each one store of the machine.
pub fn put_u16(t: &mut [u8], at: usize, x: u16)
    requires { at + 2 ≤ length t.old }
    ensures { t.new ≡ over t.old at (bytes_of 2 x) }
{
    put_bytes(t, at, x.to_le_bytes())
}

pub fn put_u64(t: &mut [u8], at: usize, x: u64)
    requires { at + 8 ≤ length t.old }
    ensures { t.new ≡ over t.old at (bytes_of 8 x) }
{
    put_bytes(t, at, x.to_le_bytes())
}

// Writes two bytes, and behind them zeros, as many as the count says.
pub fn put_pair(t: &mut [u8], at: usize, first: u8, second: u8, zeros: usize)
    requires { at + (2 + zeros) ≤ length t.old }
    ensures { t.new ≡ over t.old at (first ∷ second ∷ replicate zeros 0) }
{
    t[at] = first;
    t[at + 1] = second;
    t[at + 2..at + 2 + zeros].fill(0)
}

// The 32 bytes of a configuration from a place on.
pub fn config_bytes_at(t: &[u8], at: usize) -> [u8; CONFIG_SIZE]
    requires { at + config_size ≤ length t.now }
    ensures { result ≡ part t.now at config_size }
{
    bytes_at(t, at)
}

// Writes a configuration.
pub fn put_config_bytes(t: &mut [u8], at: usize, config: [u8; CONFIG_SIZE])
    requires { at + config_size ≤ length t.old }
    ensures { t.new ≡ over t.old at config }
{
    put_bytes(t, at, config)
}
