// Replays bad input: jobs, each with edits and the answer to each edit, all read from standard input; tools/vectors
// writes them, and what has to come out. A wrong answer is a line of its own, and changes the counts of its group.
//
// The input is a row of records, numbers little-endian:
//
//   J length:4 bytes        the job that the records behind it speak of
//   T answers               every length, from none to all of the job: an answer each
//   F mask answers          every byte in turn, with the mask's bits turned over
//   P four bytes, answers   these bytes put at every place in turn
//   S pieces answer         a byte string made of pieces: C from:4 length:4 of the job, B length:4 bytes,
//                           R length:4 byte (one byte repeated); a point ends them
//   N length:1 text         ends a group: its name, and how often each answer came
//
// An answer is the digit of the refusal, 1 to 5, or 0 for none (docs/RULES.md, "Answers").
#![tactic(auto)]

use input::read_up_to;
use std::io;

mod answers;
mod cursor;
mod groups;
mod pieces;
mod sweeps;

fn main(rt: HostRuntime) -> io::Result<()> {
    let mut input = [0u8; 393216];
    let n = read_up_to(&mut rt.reader(), &mut input)?;
    groups::all(&rt, &input[..n])
}
