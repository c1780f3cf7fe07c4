// The unstarred cases of document 01, "Trays through the house", the boundaries of the twelve calls and those of the writer of standard
// forms. The cases stand in the file `stdin`, and `stdout` holds what documents 01 and 02 say of each; it was written from the papers,
// and EXPECTED.md gives the sentence for every case.
//
// A line of `stdin` has a text, which is printed, and behind a bar calls with commas between them: a word and its numbers. A line with
// text and calls is a case: its name, and the reply to each of its calls, a number and three figures. A line without calls is a
// heading, and a line without text is set-up, whose replies are not printed. An empty line prints nothing.
//
//     lay N M VALUE, read ITEM, write ITEM VALUE, change ITEM, poll STATION, put STATION SORT,
//     commit, abandon, link STATION STATE, reach ITEM, diagnose, plan ITEM
//
// are the twelve calls; lay and change are lent the configuration that was set last. These words say what is lent from then on, store in
// the table or keep its bytes, and have no reply:
//
//     lend LENGTH         so many bytes of the one space, as the table
//     pairs LENGTH        so many bytes of the pair sets 0003, 0005, 0006 on both sides, as the configuration
//     sets READ WRITE     read sets and write sets, as the configuration: at most four a side, 16 bits of a number each, the first least
//                         significant
//     more READ WRITE     four more a side, at places 4 to 7
//     byte AT VALUE       a byte
//     number AT VALUE     a number of eight bytes, the least significant first
//     keep                a copy of the bytes that are lent as the table
//
// These have a reply of their own:
//
//     same                1 if the bytes that are lent as the table are those that were kept last, and as many, else 0
//     form N LENGTH       the writer of standard forms, lent the configuration that was set last and an output of so many bytes, at most
//                         40, each AA before the call: its reply, and the output's bytes in pairs. A pair is a place, the least
//                         significant byte first
//
// And these have eleven replies (`rows.rt`):
//
//     eleven                     the eleven calls but lay
//     three ROUND AT VALUE       lays a table of n 3, m 5 with all stations on and a round, and makes the eleven calls with one byte
//                                changed
//     fifteen ROUND AT VALUE     the same of n 15, m 1
//
// Any other word gets the number 99, in a set-up too.
#![tactic(auto)]

mod bytes;
mod call;
mod lent;
mod perform;
mod reply;
mod rows;
mod script;
mod step;
mod writer;

use std::io;
use whole_input::{LIMIT, read_whole};

fn main(rt: HostRuntime) -> io::Result<()> {
    let mut room = [0; LIMIT];
    let input = read_whole(&mut rt.stdin(), &mut room)?;
    script::run(&mut rt.stdout(), input)
}
