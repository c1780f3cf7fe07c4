// Frames: a line is read as one, or is none.
ghost use Rattle.std.specs.Prelude.{◌≡◌, true, ◌*◌, ◌%◌, ◌≤◌, length, is_some, OnSome};
ghost use Rattle.dispatch.specs.Codes.{number_or};
ghost use Rattle.frames.specs.Hex.{all_digits, bytes_in};
ghost use Rattle.frames.specs.Frame.{call_byte, arguments_in, is_frame};
ghost use Rattle.frames.specs.Reading.{code_in, Leads};

use crate::hex::byte_of;
use dispatch::Code;

// The bytes of a buffer for the arguments of any frame.
pub const MOST_ARGUMENTS: usize = 42;

// The byte of the two digits that lead the line; 00 if none do, as the reply line shows.
pub fn call_byte(line: &[u8]) -> u8
    ensures { result ≡ call_byte line.now }
{
    match line {
        [high, low, ..] => byte_of(*high, *low).unwrap_or(0),
        _ => 0,
    }
}

// Reads a byte from each pair of digits; None if a character is none.
fn read_bytes(text: &[u8], bytes: &mut [u8]) -> Option<()>
    requires { (length text.now % 2 ≡ 0) × (length text.now ≤ 2 * length bytes.old) }
    ensures value { is_some result ≡ all_digits text.now }
    ensures leads { OnSome result (Leads (bytes_in text.now) bytes.new) }
{
    let (pairs, _) = text.as_chunks::<2>();
    for (k, pair) in pairs.iter().enumerate() {
        bytes[k] = byte_of(pair[0], pair[1])?;
    }
    Some(())
}

// Reads the frame in a line, whose call byte is given: its arguments lead the buffer, and its code is returned.
pub fn read_frame(line: &[u8], call: u8, arguments: &mut [u8; MOST_ARGUMENTS]) -> Option<Code>
    requires { call ≡ call_byte line.now }
    ensures value { number_or result ≡ code_in line.now }
    ensures leads { is_frame line.now ≡ true → Leads (arguments_in line.now) arguments.new }
{
    let code = Code::of(call)?;
    let n = code.frame_length();
    if line.len() != 2 * n {
        return None;
    }
    read_bytes(&line[2..], arguments)?;
    Some(code)
}
