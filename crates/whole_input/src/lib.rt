// Input that is read whole, as the programs of cases read their scripts.
#![tactic(auto)]

ghost use Rattle.std.specs.Prelude.{◌<◌, ◌≤◌, IfOk, length, take};
ghost use Rattle.std.specs.Io.KnownBytes.{Consumes, IsAtEnd};

use std::io;
use std::io::Read;

// How many bytes of their input the programs read.
pub const LIMIT: usize = 65536;

// Reads until the buffer is full or the input ends, and returns how many bytes it put at the start of the buffer.
pub fn read_full<R: Read>(from: &mut R, buf: &mut [u8]) -> io::Result<usize>
    ensures room { IfOk result (λ n. n ≤ length buf.new) }
    ensures taken { IfOk result (λ n. Consumes (R.remaining from.old) (R.remaining from.new) (take n buf.new)) }
    ensures ended { IfOk result (λ n. n < length buf.new → IsAtEnd (R.remaining from.new)) }
{
    let mut done = 0;
    while done < buf.len() {
        let n = from.read(&mut buf[done..])?;
        if n == 0 {
            return Ok(done);
        }
        done += n;
    }
    Ok(done)
}

// Reads the input to its end, or as much of it as the room holds, and hands on what was read.
pub fn read_whole<'a, R: Read>(from: &mut R, room: &'a mut [u8]) -> io::Result<&'a [u8]>
    ensures room { IfOk result (λ read. length read.now ≤ length room.old) }
    ensures taken { IfOk result (λ read. Consumes (R.remaining from.old) (R.remaining from.new) read.now) }
    ensures ended { IfOk result (λ read. length read.now < length room.old → IsAtEnd (R.remaining from.new)) }
{
    let n = read_full(from, room)?;
    Ok(&room[..n])
}

#[cfg(test)]
mod tests {
    use super::*;

    // That a reader of bytes is read to its end, and no further than the room goes.
    #[test]
    fn reads_whole_input_and_up_to_the_limit(rt: HostRuntime) -> io::Result<()> {
        let mut room = [0; 100];
        let mut input: &[u8] = b"tomatoes";
        let whole = read_whole(&mut input, &mut room)?;
        assert_eq!(rt; whole, b"tomatoes".as_slice());
        let mut room = [0; 6];
        let mut input: &[u8] = b"tomatoes";
        let cut = read_whole(&mut input, &mut room)?;
        assert_eq!(rt; cut, b"tomato".as_slice());
        Ok(())
    }
}
