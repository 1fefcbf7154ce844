// The listing of a job (docs/RULES.md, "The listing"). What each line has is said where it is made, by its `output`; that the lines are written, and in which order, can't be said:
// no contract says what an output takes.
#![tactic(auto)]

ghost use Rattle.std.specs.Prelude.{Some};
ghost use Rattle.listing.specs.Lines.{done_line, refused_line};

use crate::items::{segments, stops};
use finding::Finding;
use std::{fmt, io};
use writer::{Refused, Totals};

mod items;

// The first n findings.
fn findings(rt: &impl Print, list: &[Finding], n: usize) -> io::Result<()> {
    for finding in list.iter().take(n) {
        println!(rt; "{finding}")?;
    }
    Ok(())
}

// The four counts of a finished job.
#[derive(Clone, Copy)]
struct DoneLine(Totals);

impl fmt::Display for DoneLine {
    ghost output = { λ d. let s = d.0 in Some (done_line s.bytes s.segments s.findings s.stops) };

    fn fmt<W: fmt::Write>(&self, f: &mut fmt::Formatter<W>) -> fmt::Result {
        let s = self.0;
        write!(
            f,
            "done {} {} {} {}",
            s.bytes, s.segments, s.findings, s.stops
        )
    }
}

// The number of a job that is refused.
#[derive(Clone, Copy)]
struct RefusedLine(u32);

impl fmt::Display for RefusedLine {
    ghost output = { λ t. Some (refused_line t.0) };

    fn fmt<W: fmt::Write>(&self, f: &mut fmt::Formatter<W>) -> fmt::Result {
        let number = self.0;
        write!(f, "refused {number}")
    }
}

// The four counts that the lists would take, on standard error.
fn room(rt: &impl Eprint, s: Totals) -> io::Result<()> {
    eprintln!(rt;
        "bytes, segments, findings and stops that the lists would take: {} {} {} {}",
        s.bytes, s.segments, s.findings, s.stops
    )
}

// The first n bytes of a document, and a line feed.
fn bytes(rt: &impl Print, document: &[u8], n: usize) -> io::Result<()> {
    if let Some(bytes) = document.get(..n) {
        rt.write_all(bytes)?;
    }
    println!(rt;)
}

/// Prints the listing of a job: docs/RULES.md, "The listing". The text of each line is proved (`finding_line`, `stop_line`, `segment_line`, `done_line`,
/// `refused_line`). Which lines are printed, in which order, and that the document's bytes come last, is only tested: no contract can say what is
/// written to `rt`. An error is what `rt` answers where it can't write.
///
/// Lends 65,536 bytes and 512 places in each other list, and prints the listing or `refused` and a number; where it is 7, the sizes that it would take
/// go to standard error.
pub fn print(rt: &(impl Print + Eprint), job: &[u8]) -> io::Result<()> {
    let mut document = [0u8; 65536];
    let mut traced = [0u64; 1536];
    let mut stopped = [0u64; 1536];
    let listing = baktuven::listed(job, &mut document, &mut traced, &mut stopped);
    match listing.answer {
        Ok(totals) => {
            let done_line = DoneLine(totals);
            println!(rt; "{done_line}")?;
            findings(rt, &listing.findings, totals.findings)?;
            stops(rt, &stopped, totals.stops)?;
            segments(rt, &traced, totals.segments)?;
            bytes(rt, &document, totals.bytes)
        }
        Err(refused) => {
            let refused_line = RefusedLine(refused.number());
            println!(rt; "{refused_line}")?;
            match refused {
                Refused::Room(totals) => room(rt, totals),
                _ => Ok(()),
            }
        }
    }
}
