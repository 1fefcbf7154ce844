// Reads a job on standard input and tells whether its plan is complete: `complete`, `incomplete`, or `refused` and a number.
#![tactic(auto)]

use input::read_up_to;
use refusal::Refusal;
use std::io;

fn told(rt: &impl Print, answer: Result<bool, Refusal>) -> io::Result<()> {
    match answer {
        Ok(true) => println!(rt; "complete"),
        Ok(false) => println!(rt; "incomplete"),
        Err(refusal) => println!(rt; "refused {}", refusal.number()),
    }
}

fn main(rt: HostRuntime) -> io::Result<()> {
    // one byte more than the longest job
    let mut input = [0u8; 65537];
    let n = read_up_to(&mut rt.reader(), &mut input)?;
    told(&rt, judge::judge(&input[..n]))
}
