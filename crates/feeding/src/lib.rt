// A piece of input fed to a session.
#![tactic(auto)]

ghost use Rattle.std.specs.Prelude.{◌≡◌, ◌⊎◌, ◌+◌, ◌≤◌, ◌<◌, length};
ghost use Rattle.replies.specs.ReplyLine.{reply_line_size};
ghost use Rattle.layout.specs.Layout.{largest};
ghost use Rattle.lines.specs.Splitting.{end_from};
ghost use Rattle.feeding.specs.Buffers.{Fits, HasRoom, AnswersLine, Takes, Ends};

use lines::{find_end, keep};
use replies::REPLY_LINE_SIZE;

// How far the piece is taken, and the lengths in use: of the line so far, of the table, of the output.
#[derive(Clone, Copy)]
pub struct Fed {
    pub at: usize,
    pub len: usize,
    pub used: usize,
    pub out: usize,
}

// Answers a line, and goes on from a place of the piece with no line so far.
fn answer_line(bytes: &[u8], table: &mut [u8], out: &mut [u8], s: Fed, at: usize) -> Fed
    requires { (length table.old ≡ largest) × (s.used ≤ largest) × HasRoom out.old s }
    ensures answers_line { AnswersLine bytes.now table.old out.old s table.new out.new result }
    ensures stays_there { result.at ≡ at }
{
    let used = session::answer(bytes, table, s.used, out, s.out);
    Fed {
        at,
        len: 0,
        used,
        out: s.out + REPLY_LINE_SIZE,
    }
}

// Answers the line whose end stands at a place of the piece: one that lies whole in the piece where it stands, and one of which a
// part is kept behind that part.
fn take_line(
    piece: &[u8],
    end: usize,
    table: &mut [u8],
    line: &mut [u8],
    out: &mut [u8],
    s: Fed,
) -> Fed
    requires fits { Fits table.old line.old out.old s × HasRoom out.old s }
    requires is_line_end { (end ≡ end_from piece.now s.at) × (end < length piece.now) }
    ensures takes { Takes piece.now table.old line.old out.old s
        table.new line.new out.new result }
    ensures goes_on { s.at < result.at }
{
    let at = s.at;
    if s.len == 0 {
        return answer_line(&piece[at..end], table, out, s, end + 1);
    }
    let len = keep(&piece[at..end], line, s.len);
    answer_line(&line[..len], table, out, s, end + 1)
}

// Takes the piece up to its next line end, which answers the line, or to its end, which cuts it.
fn step(piece: &[u8], table: &mut [u8], line: &mut [u8], out: &mut [u8], s: Fed) -> Fed
    requires fits { Fits table.old line.old out.old s × HasRoom out.old s }
    requires at_in_bounds { s.at < length piece.now }
    ensures takes { Takes piece.now table.old line.old out.old s
        table.new line.new out.new result }
    ensures goes_on { s.at < result.at }
{
    let at = s.at;
    match find_end(&piece[at..]) {
        Some(n) => take_line(piece, at + n, table, line, out, s),
        None => Fed {
            at: piece.len(),
            len: keep(&piece[at..], line, s.len),
            ..s
        },
    }
}

// Feeds a piece of input from a place on, as far as the output has room for another reply line.
pub fn feed(piece: &[u8], table: &mut [u8], line: &mut [u8], out: &mut [u8], from: Fed) -> Fed
    requires { Fits table.old line.old out.old from }
    ensures takes { Takes piece.now table.old line.old out.old from
        table.new line.new out.new result }
    ensures ended_or_full { (length piece.now ≤ result.at) ⊎ (length out.old < result.out + reply_line_size) }
{
    let mut s = from;
    while s.at < piece.len() {
        if out.len() - s.out < REPLY_LINE_SIZE {
            return s;
        }
        s = step(piece, table, line, out, s);
    }
    s
}

// The end of input: a line so far of one byte or more is answered.
pub fn finish(table: &mut [u8], line: &[u8], out: &mut [u8], s: Fed) -> Fed
    requires { Fits table.old line.now out.old s × HasRoom out.old s }
    ensures { Ends table.old line.now out.old s table.new out.new result }
{
    let len = s.len;
    if len == 0 {
        return s;
    }
    answer_line(&line[..len], table, out, s, s.at)
}
