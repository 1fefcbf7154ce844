// Row segments whose parts come in the order of their places: each part is written as it comes, and its text is read once.
ghost use Rattle.std.specs.Prelude.{◌≡◌, true, ◌+◌, ◌≤◌, ◌<◌};
ghost use Rattle.lent.specs.Fit.{cap, Stored};
ghost use Rattle.format.specs.Refusal.{separators};
ghost use Rattle.segment.specs.Parts.{Part, component_of, joined};
ghost use Rattle.segment.specs.Calls.{Behind as BehindAt, Rises};
ghost use Rattle.emit.specs.Fold.{separators_of};
ghost use Rattle.emit.specs.Written.{tried};
ghost use Rattle.row_segment.specs.Stream.{Lined, puts, id_of};
ghost use Rattle.row_segment.specs.Notes.{Totals};
ghost use Rattle.row_segment.specs.Feed.{AllStood};
ghost use Rattle.nest.specs.Job.{job_by};

use crate::feed::Behind;
use crate::notes::Ended;
use crate::parts::Line;
use crate::{feed, parts};
use emit::findings::Delimiters;
use emit::signs;
use nest::Job;
use segment::{Pen, Separators};

// Whether component c of element e is at component `from` of element `at` or behind it.
fn behind(e: u32, c: u32, at: u32, from: usize) -> bool
    ensures { (x : Part) → result ≡ true → e ≡ x.element → c ≡ component_of x → BehindAt at from x }
{
    if c == 0 {
        return false;
    }
    // written out: the comparison of two pairs takes more instructions
    at < e || (at == e && from <= c as usize)
}

// Whether the parts of a line come in the order of their places.
pub fn in_order(job: Job, x: Line) -> bool
    requires { Lined job.at.bytes.now x }
    ensures { result ≡ true → Rises 1 1 (puts job.entry.at.bytes.now x 0).parts }
{
    let mut p = x.first;
    let mut at: u32 = 1;
    let mut from: usize = 1;
    for _k in 0..x.count {
        let e = plan::read::element_at(job.at.bytes, p);
        p = e.next;
        if let Some(part) = parts::seen(e) {
            let c = signs::component_of(part.component);
            if !behind(part.element, c, at, from) {
                return false;
            }
            at = part.element;
            from = c as usize + 1;
        }
    }
    true
}

// The parts of a line, each as it comes. The pen's numbers go apart: copied as one, they would be waited for.
fn put_parts(
    job: Job,
    doc: &mut [u8],
    findings: &mut [u64],
    s: Separators,
    pen: Pen,
    from: usize,
    x: Line,
    d: Delimiters,
) -> Behind
    requires { Lined job.at.bytes.now x × (tried d ≡ separators (job_by job).envelope) × (from ≤ cap) }
    ensures { AllStood s job.entry.at.bytes.now x pen from doc.old findings.old result doc.new findings.new }
{
    let mut p = x.first;
    let mut at = pen.at;
    let mut elements = pen.elements;
    let mut components = pen.components;
    let mut f = from;
    let mut n: usize = 0;
    for _k in 0..x.count {
        let e = plan::read::element_at(job.at.bytes, p);
        p = e.next;
        if let Some(part) = parts::seen(e) {
            let q = Pen {
                at,
                elements,
                components,
            };
            let g = feed::put_part(job, doc, findings, s, q, f, n, x, d, part);
            let r = g.pen;
            at = r.at;
            elements = r.elements;
            components = r.components;
            f = g.findings;
            n = g.entries;
        }
    }
    Behind {
        pen: Pen {
            at,
            elements,
            components,
        },
        findings: f,
        entries: n,
    }
}

// The bytes of a line from `at` on, and its notes; `from` numbers of findings stand before. The pen ends at the last filled element.
pub fn join_ordered(
    job: Job,
    doc: &mut [u8],
    findings: &mut [u64],
    at: usize,
    from: usize,
    x: Line,
) -> Ended
    requires { Lined job.at.bytes.now x × Rises 1 1 (puts job.at.bytes.now x 0).parts }
    ensures { Stored doc.old at (joined (separators_of (job_by job.entry)) (id_of job.entry.at.bytes.now x) (puts job.entry.at.bytes.now x 0).parts) result.bytes doc.new
        × Totals job.entry.at.bytes.now x from result.findings result.entries findings.old findings.new }
{
    let s = signs::separators_of(job.at);
    let d = signs::delimiters_of(job.at);
    let id = x.id;
    let pen = segment::begin(doc, at, job.at.bytes, id.start, id.len);
    let start = lent::more(from, 0);
    let g = put_parts(job, doc, findings, s, pen, start, x, d);
    let end = g.pen;
    let bytes = segment::close(doc, s, end, end.elements);
    Ended {
        bytes,
        findings: g.findings,
        entries: g.entries,
    }
}
