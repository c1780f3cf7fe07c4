// The frame runner: reads frames from standard input, one a line, and prints a reply line for each.
#![tactic(auto)]

ghost use Rattle.std.specs.Prelude.{◌≡◌, ◌≤◌, ◌<◌, true, IfOk, IfSome, length, take};
ghost use Rattle.std.specs.Io.KnownBytes.{Appends};
ghost use Rattle.runs.specs.Run.{run};
ghost use Rattle.runs.specs.Pieces.{printed_last};
ghost use Rattle.reading.specs.Between.{RightSizes, Ready};

use feeding::{Fed, finish};
use layout::LARGEST;
use lines::ENOUGH;
use reading::{AfterRead, answer_reads, send};
use std::io;
use std::io::{Read, Write};

// At the end of input a last line without a line end is answered. Returns the length of the output.
fn answer_last(table: &mut [u8], line: &[u8], out: &mut [u8], s: AfterRead) -> usize
    requires { Ready table.old line.now out.old s }
    ensures upper_bound { result ≤ length out.new }
    ensures out_after { take result out.new ≡ printed_last (take s.used table.old) (take s.len line.now) }
{
    let state = Fed {
        at: 0,
        len: s.len,
        used: s.used,
        out: 0,
    };
    finish(table, line, out, state).out
}

// Answers the whole input, and at its end a last line without a line end; a failed read or write leaves no such line. Returns whether the
// input was read to its end: then, where the reader's bytes and the writer's are known, a whole run was written.
fn answer_input<R: Read, W: Write>(
    from: &mut R,
    to: &mut W,
    input: &mut [u8],
    table: &mut [u8],
    line: &mut [u8],
    out: &mut [u8],
) -> io::Result<bool>
    requires { RightSizes table.old line.old out.old }
    ensures { IfOk result (λ whole. whole ≡ true → 0 < length input.old → IfSome (R.remaining from.old)
        (λ all. Appends (W.contents to.old) (W.contents to.new) (run all))) }
{
    let s = answer_reads(from, to, input, table, line, out)?;
    let end = answer_last(table, line, out, s);
    send(to, &out[..end])?;
    Ok(s.read == 0)
}

fn main(rt: HostRuntime) {
    let mut from = rt.stdin();
    let mut to = rt.stdout();
    let mut input = [0u8; 65536];
    let mut table = [0u8; LARGEST];
    let mut line = [0u8; ENOUGH];
    let mut out = [0u8; 65536];
    // Whether or not something failed, the status is 0.
    let _whole = answer_input(
        &mut from, &mut to, &mut input, &mut table, &mut line, &mut out,
    );
}
