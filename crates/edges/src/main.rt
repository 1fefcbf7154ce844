// The edge values of docs/RULES.md, "Edge values", and further dates, times and amounts, a line each, as the crate texts writes them. The file stdout
// has the published texts where a row names its source; the rest was computed apart.
#![tactic(auto)]

mod days;
mod decimals;
mod seconds;
mod shown;
mod wholes;
mod widths;

use shown::each;
use std::io;

fn main(rt: HostRuntime) -> io::Result<()> {
    each(&days::ROWS, |r| days::row(&rt, r))?;
    each(&seconds::ROWS, |r| seconds::row(&rt, r))?;
    each(&decimals::ROWS, |r| decimals::row(&rt, r))?;
    each(&wholes::ROWS, |bits| wholes::row(&rt, bits))?;
    each(&widths::ROWS, |r| widths::row(&rt, r))
}
