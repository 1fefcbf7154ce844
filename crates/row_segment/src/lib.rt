// A row segment: its bytes, the findings on its cells, its trace.
#![tactic(auto)]

mod feed;
mod join;
mod notes;
mod order;
mod parts;

ghost use Rattle.std.specs.Prelude.{List, ℕ, ◌<◌};
ghost use Rattle.lent.specs.Fit.{Stored};
ghost use Rattle.segment.specs.Parts.{joined};
ghost use Rattle.plan.specs.Planned.{PlannedIs};
ghost use Rattle.emit.specs.Fold.{separators_of, row_out};
ghost use Rattle.emit.specs.Did.{DidCounts, Within};
ghost use Rattle.row_segment.specs.Stream.{Lined, puts, id_of};
ghost use Rattle.row_segment.specs.Notes.{Totals};
ghost use Rattle.nest.specs.Job.{job_by};

use crate::notes::Ended;
use crate::parts::Line;
use emit::state;
use emit::state::{Counts, From};
use nest::Job;
use plan::answers::Planned;
use spec::ids::{LoopId, RowId, TableId};

// The bytes of a line from `at` on, and its notes; `from` numbers of findings stand before.
fn join_line(
    job: Job,
    doc: &mut [u8],
    findings: &mut [u64],
    at: usize,
    from: usize,
    x: Line,
) -> Ended
    requires { Lined job.at.bytes.now x }
    ensures { Stored doc.old at (joined (separators_of (job_by job.entry)) (id_of job.entry.at.bytes.now x) (puts job.entry.at.bytes.now x 0).parts) result.bytes doc.new
        × Totals job.entry.at.bytes.now x from result.findings result.entries findings.old findings.new }
{
    if order::in_order(job, x) {
        return order::join_ordered(job, doc, findings, at, from, x);
    }
    let g = join::join_any(job, doc, findings, at, from, x);
    let t = g.tally;
    Ended {
        bytes: g.bytes,
        findings: t.findings,
        entries: t.entries,
    }
}

// The row segment of a line, written and traced.
fn put_line(
    job: Job,
    doc: &mut [u8],
    segments: &mut [u64],
    findings: &mut [u64],
    s: Counts,
    x: Line,
) -> Counts
    requires { Lined job.at.bytes.now x × Within s }
    ensures { (p : List ℕ) → DidCounts (row_out (job_by job.entry) x.l.0 x.i x.t.0 x.r.0) s result
        doc.old doc.new segments.old segments.new findings.old findings.new p p }
{
    let g = join_line(job, doc, findings, s.bytes, s.findings, x);
    let t = x.t;
    let r = x.r;
    state::finish_segment(segments, s, From::Row(t, r), g.entries, g.bytes, g.findings)
}

// Planned segment i of a loop, which is p, written from a row: one segment, its findings, its trace.
pub fn write_row(
    job: Job,
    doc: &mut [u8],
    segments: &mut [u64],
    findings: &mut [u64],
    s: Counts,
    l: LoopId,
    i: u32,
    p: Planned,
    t: TableId,
    r: RowId,
) -> Counts
    requires { Within s × (l.0 < 32) × PlannedIs job.at.bytes.now l.0 i p }
    ensures { (p : List ℕ) → DidCounts (row_out (job_by job.entry) l.0 i t.0 r.0) s result
        doc.old doc.new segments.old segments.new findings.old findings.new p p }
{
    let x = parts::line_of(job, l, i, p, t, r);
    put_line(job, doc, segments, findings, s, x)
}
