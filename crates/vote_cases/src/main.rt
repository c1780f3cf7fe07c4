// The cases of votes (document 02, 2026-01) and their boundaries. They stand in the file `stdin`, and `stdout` holds what the paper says
// of each; it was written from the paper, and EXPECTED.md gives the sentence for every case.
//
// A line of `stdin` is a heading, which is printed as it is, or a case:
//
//     NAME: | READ WRITE LENGTH VOTE VOTE ..
//
// the thresholds, the length of the output, at most 40, and at most 20 votes. The output's bytes are AA before the call. A case prints its
// name, the reply, a number and three figures, and the output's bytes in pairs: each pair is a place, the least significant byte first. A
// case that cannot be run, with a word that is no number of 64 bits, a vote above 255, a longer output or too many or too few words,
// prints 99.
#![tactic(auto)]

mod case;
mod script;

use std::io;
use whole_input::{LIMIT, read_whole};

fn main(rt: HostRuntime) -> io::Result<()> {
    let mut room = [0; LIMIT];
    let input = read_whole(&mut rt.stdin(), &mut room)?;
    script::run(&mut rt.stdout(), input)
}
