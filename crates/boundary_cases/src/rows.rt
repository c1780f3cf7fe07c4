// Rows of calls on one table.
use crate::bytes::replace;
use crate::call::Call;
use crate::reply::reply;
use std::io;
use std::io::Write;

// Set 0004 on both sides, the target of every change here.
const TARGET: [u8; 32] = *b"\x04\0\0\0\0\0\0\0\0\0\0\0\0\0\0\0\x04\0\0\0\0\0\0\0\0\0\0\0\0\0\0\0";

// The eleven calls but lay, each on item 0 or station 2; diagnose comes right before commit, plan at the end.
const ELEVEN: [Call; 11] = [
    Call::Read(0),
    Call::Write {
        item: 0,
        value: 510,
    },
    Call::Change(0),
    Call::Poll(2),
    Call::Put {
        station: 2,
        sort: 1,
    },
    Call::Diagnose,
    Call::Commit,
    Call::Abandon,
    Call::Link {
        station: 2,
        state: 1,
    },
    Call::Reach(0),
    Call::Plan(0),
];

// The polls and puts of an open round.
const STEPS: [Call; 4] = [
    Call::Poll(0),
    Call::Poll(1),
    Call::Put {
        station: 2,
        sort: 1,
    },
    Call::Put {
        station: 0,
        sort: 2,
    },
];

pub fn eleven<W: Write>(to: &mut W, table: &mut [u8]) -> io::Result<()> {
    for call in ELEVEN {
        reply(to, call.make(table, &TARGET))?;
    }
    Ok(())
}

// The call that opens a round of a kind, 1 read, 2 write or 3 change; for 0 one that is refused.
fn opening(kind: u64) -> Call {
    match kind {
        1 => Call::Read(0),
        2 => Call::Write {
            item: 0,
            value: 510,
        },
        3 => Call::Change(0),
        _ => Call::Abandon,
    }
}

// A table of three stations and five items, or of fifteen stations and one item.
#[derive(Clone, Copy)]
pub enum Laid {
    Three,
    Fifteen,
}

impl Laid {
    // Lays the table, and links all of its stations to on.
    fn lay(self, table: &mut [u8], config: &[u8]) {
        let (n, m) = match self {
            Laid::Three => (3, 5),
            Laid::Fifteen => (15, 1),
        };
        Call::Lay { n, m, value: 500 }.make(table, config);
        for station in 0..n {
            Call::Link { station, state: 1 }.make(table, &TARGET);
        }
    }
}

// Such a table with a round of a kind and one byte changed.
#[derive(Clone, Copy)]
pub struct Damaged {
    pub laid: Laid,
    pub round: u64,
    pub at: u64,
    pub value: u64,
}

impl Damaged {
    // Lays the table, with a round of item 0 that has polled 0 and 1. A write and a change to 0004 have a data put at 2, and the change a
    // configuration put at 0; a round refuses the puts that it does not take.
    fn prepare(self, table: &mut [u8], config: &[u8]) {
        self.laid.lay(table, config);
        opening(self.round).make(table, &TARGET);
        for call in STEPS {
            call.make(table, &TARGET);
        }
    }

    // The eleven calls on the table with its byte changed; then the byte is as it was.
    pub fn run<W: Write>(self, to: &mut W, table: &mut [u8], config: &[u8]) -> io::Result<()> {
        self.prepare(table, config);
        let before = replace(table, self.at, self.value);
        eleven(to, table)?;
        if let Some(before) = before {
            replace(table, self.at, before as u64);
        }
        Ok(())
    }
}
