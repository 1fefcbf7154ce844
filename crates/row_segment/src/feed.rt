// A part that is written and noted as it comes, by what gives it its text.
ghost use Rattle.std.specs.Prelude.{◌≡◌, true, ◌<◌, Some};
ghost use Rattle.lent.specs.Window.{stretch};
ghost use Rattle.lent.specs.Fit.{more};
ghost use Rattle.format.specs.Ask.{data_of};
ghost use Rattle.format.specs.Refusal.{separators};
ghost use Rattle.column.specs.Cell.{cell_of};
ghost use Rattle.column.specs.Answers.{Reads};
ghost use Rattle.segment.specs.Pen.{placed, Penned};
ghost use Rattle.emit.specs.Written.{is_own, tried};
ghost use Rattle.row_segment.specs.Stream.{Lined};
ghost use Rattle.row_segment.specs.Feed.{FromCell, Stood};
ghost use Rattle.nest.specs.Job.{job_by};

use crate::notes::Tally;
use crate::parts::{Line, Planned, Source};
use crate::{notes, parts};
use column::Cell;
use emit::findings::Delimiters;
use emit::{cells, findings, signs};
use nest::Job;
use segment::{Pen, Separators};

// The pen behind a part, how many numbers of findings there are then, and how many trace entries.
#[derive(Clone, Copy)]
pub struct Behind {
    pub pen: Pen,
    pub findings: usize,
    pub entries: usize,
}

// A stretch of the job at component c of element e, without a finding.
#[inline(always)]
fn put_stretch(
    job: &[u8],
    doc: &mut [u8],
    s: Separators,
    pen: Pen,
    from: usize,
    entries: usize,
    e: u32,
    c: u32,
    start: usize,
    len: usize,
) -> Behind
    ensures { Penned (placed s pen e c (stretch job.now start len)) pen.at result.pen doc.old doc.new × (result.findings ≡ more from 0) × (result.entries ≡ entries) }
{
    let q = segment::part(doc, job, s, pen, e as usize, c as usize, start, len);
    let f = lent::more(from, 0);
    Behind {
        pen: q,
        findings: f,
        entries,
    }
}

// A cell that was read, and whose text is its own: it holds no separator.
fn put_own(
    job: Job,
    doc: &mut [u8],
    findings: &mut [u64],
    s: Separators,
    pen: Pen,
    from: usize,
    entries: usize,
    x: Line,
    p: Planned,
    column: u32,
    cell: Cell,
) -> Behind
    requires { Lined job.at.bytes.now x × (entries < 4294967296) × FromCell p column
        × Reads job.at.bytes.now cell (Some (cell_of (data_of (job_by job) x.t.0) column x.r.0)) × (is_own cell ≡ true) }
    ensures { Stood s job.entry.at.bytes.now x p pen from entries doc.old findings.old result doc.new findings.new }
{
    let id = x.id;
    let component = p.component;
    let w = cells::own_text(job, id, p.element, component, cell);
    let text = cells::text_in(w);
    let c = signs::component_of(component);
    let q = cells::put_text(doc, s, pen, p.element, c, text);
    let f = notes::note_refused(job.at.bytes, findings, from, x, p, column, w.err());
    Behind {
        pen: q,
        findings: f,
        entries: entries + 1,
    }
}

// Any part, by its text as a value.
fn put_value(
    job: Job,
    doc: &mut [u8],
    findings: &mut [u64],
    s: Separators,
    pen: Pen,
    from: usize,
    entries: usize,
    x: Line,
    p: Planned,
) -> Behind
    requires { Lined job.at.bytes.now x × (entries < 4294967296) }
    ensures { Stood s job.entry.at.bytes.now x p pen from entries doc.old findings.old result doc.new findings.new }
{
    let w = parts::text_of(job, x, p);
    let v = w.value;
    let component = p.component;
    let c = signs::component_of(component);
    let q = segment::component(doc, job.at.bytes, s, pen, p.element as usize, c as usize, v);
    let y = notes::tried_of(job, x);
    let t = Tally {
        findings: from,
        entries,
        last: 0,
    };
    let u = notes::note_text(job.at.bytes, findings, t, x, y, p, w);
    Behind {
        pen: q,
        findings: u.findings,
        entries: u.entries,
    }
}

// A cell: a stretch of the job or a text of its own; one that holds a separator goes by its value.
fn put_cell(
    job: Job,
    doc: &mut [u8],
    findings: &mut [u64],
    s: Separators,
    pen: Pen,
    from: usize,
    entries: usize,
    x: Line,
    d: Delimiters,
    p: Planned,
    column: u32,
) -> Behind
    requires { Lined job.at.bytes.now x × (tried d ≡ separators (job_by job).envelope) × (entries < 4294967296) × FromCell p column }
    ensures { Stood s job.entry.at.bytes.now x p pen from entries doc.old findings.old result doc.new findings.new }
{
    let table = x.t;
    let row = x.r;
    let cell = tables::data::cell(job.at, table, column, row);
    let Some(h) = cells::held_in(cell) else {
        return put_own(
            job, doc, findings, s, pen, from, entries, x, p, column, cell,
        );
    };
    if findings::stretch_holds(job.at.bytes, h.start, h.len, d) {
        return put_value(job, doc, findings, s, pen, from, entries, x, p);
    }
    let component = p.component;
    let c = signs::component_of(component);
    put_stretch(
        job.at.bytes,
        doc,
        s,
        pen,
        from,
        entries + 1,
        p.element,
        c,
        h.start,
        h.len,
    )
}

// A part at its place.
pub fn put_part(
    job: Job,
    doc: &mut [u8],
    findings: &mut [u64],
    s: Separators,
    pen: Pen,
    from: usize,
    entries: usize,
    x: Line,
    d: Delimiters,
    p: Planned,
) -> Behind
    requires { Lined job.at.bytes.now x × (tried d ≡ separators (job_by job).envelope) × (entries < 4294967296) }
    ensures { Stood s job.entry.at.bytes.now x p pen from entries doc.old findings.old result doc.new findings.new }
{
    let source = p.source;
    let component = p.component;
    match source {
        Source::Code(c) => {
            let n = signs::component_of(component);
            put_stretch(
                job.at.bytes,
                doc,
                s,
                pen,
                from,
                entries,
                p.element,
                n,
                c.start,
                c.len,
            )
        }
        Source::Cell(c) => put_cell(job, doc, findings, s, pen, from, entries, x, d, p, c),
    }
}
