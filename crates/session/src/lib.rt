// One line of a session.
#![tactic(auto)]

ghost use Rattle.std.specs.Prelude.{◌≡◌, ◌+◌, ◌≤◌, length, take};
ghost use Rattle.basics.specs.Bytes.{over};
ghost use Rattle.dispatch.specs.Codes.{number_or};
ghost use Rattle.dispatch.specs.Dispatch.{call_at};
ghost use Rattle.replies.specs.ReplyLine.{reply_line_size};
ghost use Rattle.runs.specs.Session.{table_after, printed};
ghost use Rattle.layout.specs.Layout.{largest};
ghost use Rattle.session.specs.Buffer.{InUse, lent_length};

use dispatch::{Code, perform};
use frames::frame::{MOST_ARGUMENTS, call_byte, read_frame};
use replies::write_reply;
use table::head::lay_length;

// The length of the buffer that a call is lent: what a lay's n and m need, or the table in use.
fn lent_length(code: Option<Code>, arguments: &[u8; MOST_ARGUMENTS], used: usize) -> usize
    requires { used ≤ largest }
    ensures value { result ≡ lent_length used (call_at (number_or code) arguments.now) }
    ensures upper_bound { result ≤ largest }
{
    let Some(code) = code else {
        return used;
    };
    match code {
        Code::Lay => lay_length(arguments[0] as u64, arguments[1] as u64).unwrap_or(0),
        _ => used,
    }
}

// The byte of a code; 00, which stands for no call, where there is none.
fn code_byte(code: Option<Code>) -> u8
    ensures { result ≡ number_or code }
{
    match code {
        Some(code) => code.number(),
        None => 0,
    }
}

// Answers one line, without its end, on the table in the first `used` bytes of the buffer: the reply line goes to a place of
// the output, and the length of the table in use after it is returned.
pub fn answer(line: &[u8], table: &mut [u8], used: usize, out: &mut [u8], at: usize) -> usize
    requires { (length table.old ≡ largest) × (used ≤ largest) × (at + reply_line_size ≤ length out.old) }
    ensures in_use { InUse table.old table.new result (table_after (take used table.old) line.now) }
    ensures out_after { out.new ≡ over out.old at (printed (take used table.old) line.now) }
{
    let call = call_byte(line);
    let mut arguments = [0u8; MOST_ARGUMENTS];
    let code = read_frame(line, call, &mut arguments);
    let lend = lent_length(code, &arguments, used);
    let r = perform(&mut table[..lend], code_byte(code), &arguments);
    write_reply(call, r, out, at);
    if r.number == 0 {
        return lend;
    }
    used
}
