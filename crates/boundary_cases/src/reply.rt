// Replies as the cases print them.
use case_text::Shown;
use rules::Reply;
use std::io;
use std::io::Write;

// The reply to a word or an output that is not known here.
pub const UNKNOWN: Reply = Reply {
    number: 99,
    first: 0,
    second: 0,
    third: 0,
};

pub fn reply<W: Write>(to: &mut W, r: Reply) -> io::Result<()> {
    write!(to, "  {}", Shown(r))
}
