// The writer of standard forms.
use crate::reply::{UNKNOWN, reply};
use case_text::Pairs;
use ospreyscreen::ospreyscreen_standard_form;
use std::io;
use std::io::Write;

// The writer with an output of so many bytes, each AA before it; there are at most 40. Its reply and the output's bytes are printed if
// they are to be shown.
pub fn form<W: Write>(
    to: &mut W,
    n: u64,
    config: &[u8],
    length: u64,
    shown: bool,
) -> io::Result<()> {
    let mut room = [0xAA; 40];
    let Some(out) = room.get_mut(..length as usize) else {
        return reply(to, UNKNOWN);
    };
    let r = ospreyscreen_standard_form(n, config, out);
    if shown {
        reply(to, r)?;
        write!(to, "{}", Pairs(out))?;
    }
    Ok(())
}
