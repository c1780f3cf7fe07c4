// The script, line by line.
use crate::case::{Case, LONGEST};
use case_text::{Pairs, Shown, split_once};
use ospreyscreen::ospreyscreen_votes;
use std::io;
use std::io::Write;

// The number of a case that cannot be run.
const UNFIT: u64 = 99;

// Makes the call, and prints its reply and the output.
fn call<W: Write>(to: &mut W, case: &Case) -> io::Result<()> {
    let mut room = [0xAA; LONGEST];
    let out = &mut room[..case.length];
    let reply = ospreyscreen_votes(case.votes.as_slice(), case.read, case.write, out);
    write!(to, "{}{}", Shown(reply), Pairs(out))
}

// Runs a line's case, behind its name.
fn perform<W: Write>(to: &mut W, text: &[u8]) -> io::Result<()> {
    match Case::try_from(text) {
        Ok(case) => call(to, &case)?,
        Err(_) => write!(to, "{UNFIT}")?,
    }
    to.write_all(b"\n")
}

// Runs the script. A heading is printed as it is. Of a case the name is printed, and it is run if its line has an end.
pub fn run<W: Write>(to: &mut W, script: &[u8]) -> io::Result<()> {
    for line in script.split_inclusive(|b| *b == b'\n') {
        let Some((name, case)) = split_once(line, b'|') else {
            to.write_all(line)?;
            continue;
        };
        to.write_all(name)?;
        if let Some(case) = case.strip_suffix(b"\n") {
            perform(to, case)?;
        }
    }
    Ok(())
}
