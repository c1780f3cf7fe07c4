// A reader, as standard input, read piece by piece and answered to a writer.
#![tactic(auto)]

ghost use Rattle.std.specs.Prelude.{◌≡◌, ◌<◌, IfOk, OnOk, MatchResult, length, take};
ghost use Rattle.std.specs.Io.KnownBytes.{Appends, IsAtEnd};
ghost use Rattle.runs.specs.Pieces.{printed_by};
ghost use Rattle.feeding.specs.Buffers.{in_hand};
ghost use Rattle.reading.specs.Between.{RightSizes, Ready, dropped, AnswersPiece, Stopped, Moved, RunSoFar};

use feeding::{Fed, feed};
use std::io;
use std::io::{Read, Write};

// Between two reads: the lengths in use of the table and of the line so far, and how many bytes the last read gave.
#[derive(Clone, Copy)]
pub struct AfterRead {
    pub used: usize,
    pub len: usize,
    pub read: usize,
}

// A read or a write failed: why, the length in use of the table then, and how many bytes the last read gave. No line is in hand.
#[derive(Debug, Drop)]
pub struct Failed {
    pub error: io::Error,
    pub used: usize,
    pub read: usize,
}

impl From<Failed> for io::Error {
    ghost from_gives = { λ failed error. error ≡ failed.error };

    fn from(failed: Failed) -> io::Error {
        failed.error
    }
}

// Writes all of the text and flushes the writer.
pub fn send<W: Write>(to: &mut W, text: &[u8]) -> io::Result<()>
    ensures { OnOk result (Appends (W.contents to.old) (W.contents to.new) text.now) }
{
    to.write_all(text)?;
    to.flush()
}

// Feeds a piece of input to the session, and writes its replies as often as they fill the output and at the end. Where they
// cannot be written the piece is left, and the line so far with it.
fn answer_piece<W: Write>(
    to: &mut W,
    piece: &[u8],
    table: &mut [u8],
    line: &mut [u8],
    out: &mut [u8],
    s: AfterRead,
) -> Result<AfterRead, Failed>
    requires { Ready table.old line.old out.old s }
    ensures answers_piece { IfOk result (AnswersPiece piece.now table.old line.old s table.new line.new) }
    ensures written { OnOk result (Appends (W.contents to.old) (W.contents to.new)
        (printed_by (in_hand table.old s.used line.old s.len) piece.now)) }
    ensures ready { MatchResult result (λ r. Ready table.new line.new out.new r × (r.read ≡ length piece.now))
        (λ failed. Ready table.new line.new out.new (dropped failed)) }
{
    let mut fed = Fed {
        at: 0,
        len: s.len,
        used: s.used,
        out: 0,
    };
    while fed.at < piece.len() {
        let r = feed(piece, table, line, out, fed);
        send(to, &out[..r.out]).map_err(|error| Failed {
            error,
            used: r.used,
            read: piece.len(),
        })?;
        fed = Fed { out: 0, ..r };
    }
    Ok(AfterRead {
        used: fed.used,
        len: fed.len,
        read: piece.len(),
    })
}

// Reads once, and answers what came: no byte at the end of input. A failed read leaves no line.
fn answer_read<R: Read, W: Write>(
    from: &mut R,
    to: &mut W,
    input: &mut [u8],
    table: &mut [u8],
    line: &mut [u8],
    out: &mut [u8],
    s: AfterRead,
) -> Result<AfterRead, Failed>
    requires { Ready table.old line.old out.old s }
    ensures answers_piece { IfOk result (λ r. AnswersPiece (take r.read input.new) table.old line.old s
        table.new line.new r) }
    ensures moved { IfOk result (λ r. Moved (R.remaining from.old) (R.remaining from.new)
        (W.contents to.old) (W.contents to.new) (in_hand table.old s.used line.old s.len)
        input.new r.read) }
    ensures ready { MatchResult result (Ready table.new line.new out.new)
        (λ failed. Ready table.new line.new out.new (dropped failed)) }
{
    let failed = |error| Failed {
        error,
        used: s.used,
        read: 0,
    };
    let n = from.read(input).map_err(failed)?;
    answer_piece(to, &input[..n], table, line, out, s)
}

// Reads and answers, from the start, until a read gives no byte or something fails. No input has more reads than the loop.
pub fn answer_reads<R: Read, W: Write>(
    from: &mut R,
    to: &mut W,
    input: &mut [u8],
    table: &mut [u8],
    line: &mut [u8],
    out: &mut [u8],
) -> Result<AfterRead, Failed>
    requires { RightSizes table.old line.old out.old }
    ensures stopped { Stopped input.new table.new line.new result }
    ensures so_far { IfOk result (λ s. RunSoFar (R.remaining from.old) (R.remaining from.new)
        (W.contents to.old) (W.contents to.new) (in_hand table.new s.used line.new s.len)) }
    ensures ended { IfOk result (λ s. s.read ≡ 0 → 0 < length input.new → IsAtEnd (R.remaining from.new)) }
    ensures sizes { RightSizes table.new line.new out.new }
    ensures ready { MatchResult result (Ready table.new line.new out.new)
        (λ failed. Ready table.new line.new out.new (dropped failed)) }
{
    let mut s = AfterRead {
        used: 0,
        len: 0,
        read: 0,
    };
    for _turn in 0..u64::MAX {
        s = answer_read(from, to, input, table, line, out, s)?;
        if s.read == 0 {
            return Ok(s);
        }
    }
    Ok(s)
}
