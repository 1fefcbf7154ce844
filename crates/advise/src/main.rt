// Reads a job on standard input and prints its listing, or `refused` and a number (docs/RULES.md, "The listing").
#![tactic(auto)]

use input::read_up_to;
use std::io;

fn main(rt: HostRuntime) -> io::Result<()> {
    // one byte more than the longest job
    let mut input = [0u8; 65537];
    let n = read_up_to(&mut rt.reader(), &mut input)?;
    listing::print(&rt, &input[..n])
}
