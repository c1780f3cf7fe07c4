// Lines: where one ends in a piece of input, and what is kept of one that the end of a piece cuts.
#![tactic(auto)]

ghost use Rattle.std.specs.Prelude.{◌≡◌, ◌==◌, ◌++◌, ◌≤◌, length, take, position};
ghost use Rattle.replies.specs.ReplyLine.{line_end};
ghost use Rattle.runs.specs.Pieces.{enough, clip};

use replies::LINE_END;

// So many bytes of a line tell its reply, and the rest is not kept.
pub const ENOUGH: usize = 87;

// The place of the first line end.
pub fn find_end(rest: &[u8]) -> Option<usize>
    ensures { result ≡ position (λ b. b == line_end) rest.now }
{
    rest.iter().position(|b| *b == LINE_END)
}

// Bytes join the line so far in its buffer; returns its length then. What the buffer holds behind the line is free.
pub fn keep(bytes: &[u8], line: &mut [u8], len: usize) -> usize
    requires { (len ≤ enough) × (enough ≤ length line.old) }
    ensures upper_bound { result ≤ enough }
    ensures line_after { take result line.new ≡ clip (take len line.old ++ bytes.now) }
{
    let more = (ENOUGH - len).min(bytes.len());
    line[len..len + more].copy_from_slice(&bytes[..more]);
    len + more
}
