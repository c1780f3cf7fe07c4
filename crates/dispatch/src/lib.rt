// Calls by code: one function from a call's code and its argument bytes to the reply, on the table as it is lent.
#![tactic(auto)]

ghost use Rattle.std.specs.Prelude.{◌≡◌, ◌+◌, ◌≤◌, ◌<◌, length, MatchOption};
ghost use Rattle.basics.specs.Bytes.{number};
ghost use Rattle.dispatch.specs.Codes.{number_of, number_or};
ghost use Rattle.dispatch.specs.Dispatch.{frame_length, call_at, reply_or, after_or};

use quorum::CONFIG_SIZE;
use rules::{Refusal, Reply};
use table::number::{byte_at, u64_at};

// "Byte 0 is the call".
#[derive(Clone, Copy, Debug, PartialEq, Eq)]
pub enum Code {
    Lay = 1,
    OpenRead = 2,
    OpenWrite = 3,
    OpenChange = 4,
    Poll = 5,
    Put = 6,
    Commit = 7,
    Abandon = 8,
    Link = 9,
    Reach = 10,
    Diagnose = 11,
    Plan = 12,
}

// "Lengths in bytes by code, kept as a table"; code 00 has no frame.
const LENGTHS: [u8; 13] = [0, 43, 2, 10, 34, 2, 3, 1, 1, 3, 2, 1, 2];

impl Code {
    // The code that a byte stands for.
    pub fn of(byte: u8) -> Option<Code>
        ensures { MatchOption result (frame_length byte ≡ 0) (λ code. number_of code ≡ byte) }
    {
        match byte {
            1 => Some(Code::Lay),
            2 => Some(Code::OpenRead),
            3 => Some(Code::OpenWrite),
            4 => Some(Code::OpenChange),
            5 => Some(Code::Poll),
            6 => Some(Code::Put),
            7 => Some(Code::Commit),
            8 => Some(Code::Abandon),
            9 => Some(Code::Link),
            10 => Some(Code::Reach),
            11 => Some(Code::Diagnose),
            12 => Some(Code::Plan),
            _ => None,
        }
    }

    pub fn number(self) -> u8
        ensures { result ≡ number_of self }
    {
        self as u8
    }

    // The length of its frames.
    pub fn frame_length(self) -> usize
        ensures { result ≡ frame_length (number_of self) }
    {
        usize::from(LENGTHS[usize::from(self.number())])
    }
}

// An argument of one byte.
fn argument(arguments: &[u8], at: usize) -> u64
    requires { at < length arguments.now }
    ensures { result ≡ number arguments.now at 1 }
{
    byte_at(arguments, at) as u64
}

// The call of a code, whose arguments are all there.
#[tactic(auto, unfolding(crate::specs::Dispatch::frame_length))]
fn call(table: &mut [u8], code: Code, arguments: &[u8]) -> Reply
    requires { frame_length (number_of code) ≤ length arguments.now + 1 }
    ensures value { result ≡ reply_or table.old (call_at (number_of code) arguments.now) }
    ensures table_after { table.new ≡ after_or table.old (call_at (number_of code) arguments.now) }
{
    match code {
        Code::Lay => ospreyscreen::ospreyscreen_lay(
            table,
            argument(arguments, 0),
            argument(arguments, 1),
            u64_at(arguments, 2),
            &arguments[10..10 + CONFIG_SIZE],
        ),
        Code::OpenRead => ospreyscreen::ospreyscreen_open_read(table, argument(arguments, 0)),
        Code::OpenWrite => ospreyscreen::ospreyscreen_open_write(
            table,
            argument(arguments, 0),
            u64_at(arguments, 1),
        ),
        Code::OpenChange => ospreyscreen::ospreyscreen_open_change(
            table,
            argument(arguments, 0),
            &arguments[1..1 + CONFIG_SIZE],
        ),
        Code::Poll => ospreyscreen::ospreyscreen_poll(table, argument(arguments, 0)),
        Code::Put => ospreyscreen::ospreyscreen_put(
            table,
            argument(arguments, 0),
            argument(arguments, 1),
        ),
        Code::Commit => ospreyscreen::ospreyscreen_commit(table),
        Code::Abandon => ospreyscreen::ospreyscreen_abandon(table),
        Code::Link => ospreyscreen::ospreyscreen_link(
            table,
            argument(arguments, 0),
            argument(arguments, 1),
        ),
        Code::Reach => ospreyscreen::ospreyscreen_reach(table, argument(arguments, 0)),
        Code::Diagnose => ospreyscreen::ospreyscreen_diagnose(table),
        Code::Plan => ospreyscreen::ospreyscreen_plan(table, argument(arguments, 0)),
    }
}

// The call of a frame's code, if there is one, and the argument bytes behind it, on the table that is lent; 12 where they stand for no call. Bytes behind the
// arguments are not read.
pub fn perform_frame(table: &mut [u8], code: Option<Code>, arguments: &[u8]) -> Reply
    ensures value { result ≡ reply_or table.old (call_at (number_or code) arguments.now) }
    ensures table_after { table.new ≡ after_or table.old (call_at (number_or code) arguments.now) }
{
    match code {
        Some(code) if code.frame_length() <= arguments.len() + 1 => call(table, code, arguments),
        _ => Refusal::FalseFrame.into(),
    }
}

// The same by the code's byte, any byte.
pub fn perform(table: &mut [u8], code: u8, arguments: &[u8]) -> Reply
    ensures value { result ≡ reply_or table.old (call_at code arguments.now) }
    ensures table_after { table.new ≡ after_or table.old (call_at code arguments.now) }
{
    perform_frame(table, Code::of(code), arguments)
}
