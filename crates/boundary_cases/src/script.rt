// The script, line by line.
use crate::lent::{Config, Kept, Lent, SPACE};
use crate::perform::perform;
use crate::step::{Step, Written};
use case_text::split_once;
use std::io;
use std::io::Write;

// Does the steps behind a bar, each up to its comma or its line's end; what neither closes is not done.
fn steps<W: Write>(to: &mut W, lent: &mut Lent, text: &[u8], shown: bool) -> io::Result<()> {
    for part in text.split_inclusive(|b| matches!(*b, b',' | b'\n')) {
        if let [step @ .., b',' | b'\n'] = part {
            perform(to, lent, Step::try_from(&Written::read(step)), shown)?;
        }
    }
    Ok(())
}

// A case's name and its replies, or a set-up, whose name is empty.
fn case<W: Write>(to: &mut W, lent: &mut Lent, name: &[u8], text: &[u8]) -> io::Result<()> {
    let shown = !name.is_empty();
    to.write_all(name)?;
    steps(to, lent, text, shown)?;
    if shown && text.ends_with(b"\n") {
        to.write_all(b"\n")?;
    }
    Ok(())
}

// Does what the script says. A heading is printed as it is, and an empty line is not.
pub fn run<W: Write>(to: &mut W, script: &[u8]) -> io::Result<()> {
    let mut lent = Lent {
        space: [7; SPACE],
        length: 0,
        config: Config::of(0, 0, 0),
        kept: Kept {
            room: [0; SPACE],
            length: 0,
        },
    };
    for line in script.split_inclusive(|b| *b == b'\n') {
        match split_once(line, b'|') {
            Some((name, text)) => case(to, &mut lent, name, text)?,
            None if line == b"\n".as_slice() => {}
            None => to.write_all(line)?,
        }
    }
    Ok(())
}
