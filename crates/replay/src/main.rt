// Replays jobs: reads them one after the other from standard input, each behind its length in four bytes, little-endian, and prints the listing of each.
// tools/vectors writes the jobs, and what has to come out.
#![tactic(auto)]

ghost use Rattle.std.specs.Prelude.{◌<◌, length, IfOk};

use input::read_up_to;
use std::io;

// Prints the listing of the job whose length stands at a place, and gives the place behind it: the end where there is no whole job.
fn replay(rt: &(impl Print + Eprint), s: &[u8], at: usize) -> io::Result<usize>
    requires { (at < length s.now) × (length s.now < 4000000) }
    ensures { IfOk result (λ next. at < next) }
{
    let n = codec::num(s, at);
    let from = at + 4;
    if from <= s.len() {
        if n <= s.len() - from {
            let end = from + n;
            listing::print(rt, &s[from..end])?;
            return Ok(end);
        }
    }
    Ok(s.len())
}

fn all(rt: &(impl Print + Eprint), s: &[u8]) -> io::Result<()> {
    if s.len() < 4000000 {
        let mut at: usize = 0;
        // each job tells where the next stands
        while at < s.len() {
            at = replay(rt, s, at)?;
        }
    }
    Ok(())
}

fn main(rt: HostRuntime) -> io::Result<()> {
    let mut input = [0u8; 393216];
    let n = read_up_to(&mut rt.reader(), &mut input)?;
    all(&rt, &input[..n])
}
