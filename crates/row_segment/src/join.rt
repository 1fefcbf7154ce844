// Row segments whose parts come in any order, in one pass: they are noted and joined, element by element as they come.
ghost use Rattle.std.specs.Prelude.{◌≡◌, ◌≤◌, ◌<◌};
ghost use Rattle.lent.specs.Fit.{cap, Stored};
ghost use Rattle.segment.specs.Parts.{here, component_text, joined};
ghost use Rattle.segment.specs.Values.{value_text, closing};
ghost use Rattle.emit.specs.Fold.{separators_of};
ghost use Rattle.row_segment.specs.Stream.{Lined, Sees, ahead, puts, id_of};
ghost use Rattle.row_segment.specs.Groups.{Scans, Steps, Rows};
ghost use Rattle.row_segment.specs.Notes.{Tries, Notes, Between, Room, Totals};
ghost use Rattle.nest.specs.Job.{job_by};

use crate::notes::{Tally, Tried};
use crate::parts::{Line, Look};
use crate::{notes, parts};
use emit::signs;
use nest::Job;
use segment::{Pen, Separators, Value};

// The last filled component of an element, the look behind its parts, and the tally with them.
#[derive(Clone, Copy)]
pub struct Scanned {
    pub last: usize,
    pub after: Look,
    pub tally: Tally,
}

// The parts at element e with which a look begins are noted.
fn scan(job: Job, findings: &mut [u64], t: Tally, x: Line, y: Tried, n: Look, e: u32) -> Scanned
    requires { Lined job.at.bytes.now x × Tries job.at.bytes.now x y × Sees job.at.bytes.now x n × Room job.at.bytes.now x t n }
    ensures { Scans job.entry.at.bytes.now x n e result.last result.after × Between job.entry.at.bytes.now x n result.after t result.tally findings.old findings.new }
{
    let mut a = n;
    let mut s = t;
    let mut m: usize = 0;
    // the cursor over the planned elements counts itself
    while let Some(p) = a.part {
        if p.element != e {
            return Scanned {
                last: m,
                after: a,
                tally: s,
            };
        }
        let w = parts::text_of(job, x, p);
        let c = p.component;
        let v = w.value;
        m = segment::raised(job.at.bytes, m, v, signs::component_of(c) as usize);
        s = notes::note_text(job.at.bytes, findings, s, x, y, p, w);
        a = parts::next_part(job, x, a.k, a.at);
    }
    Scanned {
        last: m,
        after: a,
        tally: s,
    }
}

// The text at component c of element e: that of the first part there.
fn component_value(job: Job, x: Line, n: Look, e: u32, c: u32) -> Value
    requires { Lined job.at.bytes.now x × Sees job.at.bytes.now x n }
    ensures { value_text job.entry.at.bytes.now result ≡ component_text (here e (ahead job.entry.at.bytes.now x n).parts) c }
{
    let mut a = n;
    // the cursor over the planned elements counts itself
    while let Some(p) = a.part {
        if p.element != e {
            return segment::held(0, 0);
        }
        let component = p.component;
        if signs::component_of(component) == c {
            let w = parts::text_of(job, x, p);
            return w.value;
        }
        a = parts::next_part(job, x, a.k, a.at);
    }
    segment::held(0, 0)
}

// The pen behind some elements, the look behind their parts, and the tally with them.
#[derive(Clone, Copy)]
pub struct Step {
    pub pen: Pen,
    pub after: Look,
    pub tally: Tally,
}

// Element e, at which the parts of a look begin, written and noted.
fn put_next(
    job: Job,
    doc: &mut [u8],
    findings: &mut [u64],
    s: Separators,
    pen: Pen,
    t: Tally,
    x: Line,
    y: Tried,
    a: Look,
    e: u32,
) -> Step
    requires { Lined job.at.bytes.now x × Tries job.at.bytes.now x y × Sees job.at.bytes.now x a × Room job.at.bytes.now x t a }
    ensures { Steps s job.entry.at.bytes.now x a e pen doc.old result doc.new × Between job.entry.at.bytes.now x a result.after t result.tally findings.old findings.new }
{
    let g = scan(job, findings, t, x, y, a, e);
    let value = |c| component_value(job, x, a, e, c);
    let last = g.last as u32;
    let q = segment::put_components(doc, job.at.bytes, s, pen, e as usize, last, value);
    Step {
        pen: q,
        after: g.after,
        tally: g.tally,
    }
}

// The parts of a look, as far as their elements rise.
fn put_groups(
    job: Job,
    doc: &mut [u8],
    findings: &mut [u64],
    s: Separators,
    pen: Pen,
    t: Tally,
    x: Line,
    y: Tried,
    n: Look,
) -> Step
    requires { Lined job.at.bytes.now x × Tries job.at.bytes.now x y × Sees job.at.bytes.now x n × Room job.at.bytes.now x t n }
    ensures { Rows s job.entry.at.bytes.now x n pen doc.old result doc.new × Between job.entry.at.bytes.now x n result.after t result.tally findings.old findings.new }
{
    let mut a = n;
    let mut q = pen;
    let mut u = t;
    let mut done: usize = 1;
    // the cursor over the planned elements counts itself
    while let Some(p) = a.part {
        let place = p.element as usize;
        if place < done {
            return Step {
                pen: q,
                after: a,
                tally: u,
            };
        }
        let g = put_next(job, doc, findings, s, q, u, x, y, a, p.element);
        a = g.after;
        q = g.pen;
        u = g.tally;
        done = place + 1;
    }
    Step {
        pen: q,
        after: a,
        tally: u,
    }
}

// The end of a segment, and the tally of all its parts.
#[derive(Clone, Copy)]
pub struct Joined {
    pub bytes: usize,
    pub tally: Tally,
}

// The parts that no element takes are noted, and the segment ends behind its last filled element.
fn end_line(
    job: Job,
    doc: &mut [u8],
    findings: &mut [u64],
    s: Separators,
    g: Step,
    x: Line,
    y: Tried,
) -> Joined
    requires { Lined job.at.bytes.now x × Tries job.at.bytes.now x y × Sees job.at.bytes.now x g.after × Room job.at.bytes.now x g.tally g.after × (g.tally.findings ≤ cap) }
    ensures { Stored doc.old g.pen.at (closing s g.pen result.tally.last) result.bytes doc.new × Notes (ahead job.entry.at.bytes.now x g.after) g.tally result.tally findings.old findings.new }
{
    let t = g.tally;
    let u = notes::note_rest(job, findings, t, x, y, g.after);
    let bytes = segment::close(doc, s, g.pen, u.last);
    Joined { bytes, tally: u }
}

// The bytes of a line from `at` on, and its notes; `from` numbers of findings stand before.
pub fn join_any(
    job: Job,
    doc: &mut [u8],
    findings: &mut [u64],
    at: usize,
    from: usize,
    x: Line,
) -> Joined
    requires { Lined job.at.bytes.now x }
    ensures { Stored doc.old at (joined (separators_of (job_by job.entry)) (id_of job.entry.at.bytes.now x) (puts job.entry.at.bytes.now x 0).parts) result.bytes doc.new
        × Totals job.entry.at.bytes.now x from result.tally.findings result.tally.entries findings.old findings.new }
{
    let s = signs::separators_of(job.at);
    let y = notes::tried_of(job, x);
    let n = parts::first_part(job, x);
    let id = x.id;
    let pen = segment::begin(doc, at, job.at.bytes, id.start, id.len);
    let t = notes::none_noted(from);
    let g = put_groups(job, doc, findings, s, pen, t, x, y, n);
    end_line(job, doc, findings, s, g, x, y)
}
