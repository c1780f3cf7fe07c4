// What the steps of the script do.
use crate::bytes::{replace, store};
use crate::call::Call;
use crate::lent::{Config, Lent};
use crate::reply::{UNKNOWN, reply};
use crate::rows::eleven;
use crate::step::{Act, Step, UnknownWord};
use crate::writer::form;
use std::io;
use std::io::Write;

// The pair sets: 0003, 0005, 0006.
const PAIRS: u64 = 0x0006_0005_0003;

// Makes a call; the reply is printed if it is to be shown.
fn call_shown<W: Write>(
    to: &mut W,
    table: &mut [u8],
    config: &[u8],
    call: Call,
    shown: bool,
) -> io::Result<()> {
    let r = call.make(table, config);
    if shown {
        reply(to, r)?;
    }
    Ok(())
}

// Does what a step does on the table, or prints that its word is unknown; nothing if the space or the configuration has too few bytes.
fn act<W: Write>(
    to: &mut W,
    lent: &mut Lent,
    what: Result<Act, UnknownWord>,
    shown: bool,
) -> io::Result<()> {
    let Some(table) = lent.space.get_mut(..lent.length) else {
        return Ok(());
    };
    let Some(config) = lent.config.lent() else {
        return Ok(());
    };
    match what {
        Ok(Act::Call(call)) => call_shown(to, table, config, call, shown)?,
        Ok(Act::Byte { at, value }) => {
            replace(table, at, value);
        }
        Ok(Act::Number { at, value }) => store(table, at, value),
        Ok(Act::Same) if !shown => {}
        Ok(Act::Same) => write!(to, "  {}", u8::from(lent.kept.is(table)))?,
        Ok(Act::Form { n, length }) => form(to, n, config, length, shown)?,
        Ok(Act::Eleven) => eleven(to, table)?,
        Ok(Act::Damaged(damaged)) => damaged.run(to, table, config)?,
        Err(UnknownWord) => reply(to, UNKNOWN)?,
    }
    Ok(())
}

// Does a step; its replies are printed if they are to be shown.
pub fn perform<W: Write>(
    to: &mut W,
    lent: &mut Lent,
    step: Result<Step, UnknownWord>,
    shown: bool,
) -> io::Result<()> {
    match step {
        Ok(Step::Lend { length }) => lent.length = length as usize,
        Ok(Step::Pairs { length }) => lent.config = Config::of(PAIRS, PAIRS, length as usize),
        Ok(Step::Sets { read, write }) => lent.config = Config::of(read, write, 32),
        Ok(Step::More { read, write }) => lent.config.add(read, write),
        Ok(Step::Keep) => lent.keep(),
        Ok(Step::Act(what)) => act(to, lent, Ok(what), shown)?,
        Err(UnknownWord) => act(to, lent, Err(UnknownWord), shown)?,
    }
    Ok(())
}
