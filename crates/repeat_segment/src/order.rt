// Segments whose parts are plain and come, row by row, in the order of their places: texts are written as they come.
ghost use Rattle.std.specs.Prelude.{◌≡◌, true, List, ℕ, ◌≤◌, ◌<◌};
ghost use Rattle.lent.specs.Fit.{Stored};
ghost use Rattle.format.specs.Ask.{max_of};
ghost use Rattle.column.specs.Cell.{or_null};
ghost use Rattle.column.specs.Answers.{cell_at};
ghost use Rattle.segment.specs.Parts.{joined, sorted};
ghost use Rattle.segment.specs.Pen.{placed, Penned};
ghost use Rattle.plan.specs.Answers.{element_of};
ghost use Rattle.emit.specs.Puts.{cell_text};
ghost use Rattle.emit.specs.Written.{scale_in, is_own};
ghost use Rattle.repeat_segment.specs.Planned.{Of, id_of, plans_of};
ghost use Rattle.repeat_segment.specs.Places.{text_in, element_put, row_puts, parts_of};
ghost use Rattle.repeat_segment.specs.Chunk.{parts_in, id_in};
ghost use Rattle.repeat_segment.specs.Order.{Ends, Ordered, Fed};
ghost use Rattle.nest.specs.Job.{job_by};

use crate::chunk::Chunk;
use crate::places;
use crate::places::Source;
use crate::planned::Planned;
use column::Cell;
use emit::cells;
use nest::Job;
use plan::answers::ElementPlan;
use plan::read;
use segment::{Pen, Separators};
use spec::ids::RowId;

// ---- the order

// The last place once a planned element stands behind `last` for row number k; none if it doesn't, or has a component.
fn behind(s: Planned, e: ElementPlan, k: u32, last: u32) -> Option<u32>
    requires { (e.element ≤ 255) × (s.step ≤ 255) × (k < 256) }
    ensures { (b : List ℕ) (row : ℕ) → Ends last (element_put b s k row (element_of b e)).parts result }
{
    if e.component.is_some() {
        return None;
    }
    match places::place_of(e, s.step, k) {
        None => Some(last),
        Some(m) if last < m => Some(m),
        Some(_) => None,
    }
}

// The same for all planned elements.
fn row_behind(job: &[u8], s: Planned, k: u32, from: u32) -> Option<u32>
    requires { Of job.now s × (k < 256) }
    ensures { (row : ℕ) → Ends from (row_puts job.now s k row (plans_of job.now s)).parts result }
{
    let mut last = from;
    let mut at = s.first;
    for _i in 0..s.count {
        let e = read::element_at(job, at);
        last = behind(s, e, k, last)?;
        at = e.next;
    }
    Some(last)
}

// Whether the parts of so many rows are plain and come in the order of their places.
pub fn in_order(job: &[u8], s: Planned, count: u32) -> bool
    requires { Of job.now s × (count ≤ 256) }
    ensures { result ≡ true → (rows : List ℕ) → Ordered (parts_of job.now s rows count) }
{
    let mut last: u32 = 0;
    for k in 0..count {
        let Some(n) = row_behind(job, s, k, last) else {
            return false;
        };
        last = n;
    }
    true
}

// ---- the texts

// The text of a date or a time at element p.
fn put_said(
    doc: &mut [u8],
    job: Job,
    sep: Separators,
    s: Planned,
    pen: Pen,
    p: u32,
    c: Option<u32>,
    cell: Cell,
) -> Pen
    requires { Of job.at.bytes.now s × (scale_in cell ≤ 38) × (is_own cell ≡ true) }
    ensures { Penned (placed sep pen p 1 (cell_text (or_null (cell_at job.entry.at.bytes.now cell)) (max_of (job_by job.entry) (id_of job.entry.at.bytes.now s) p c)).text)
        pen.at result doc.old doc.new }
{
    let said = cells::own_text(job, s.id, p, c, cell);
    let text = cells::text_in(said);
    cells::put_text(doc, sep, pen, p, 1, text)
}

// The text of a cell at element p.
fn put_cell(
    doc: &mut [u8],
    job: Job,
    sep: Separators,
    s: Planned,
    pen: Pen,
    p: u32,
    c: Option<u32>,
    cell: Cell,
) -> Pen
    requires { Of job.at.bytes.now s × (scale_in cell ≤ 38) }
    ensures { Penned (placed sep pen p 1 (cell_text (or_null (cell_at job.entry.at.bytes.now cell)) (max_of (job_by job.entry) (id_of job.entry.at.bytes.now s) p c)).text)
        pen.at result doc.old doc.new }
{
    match cell {
        Cell::None => segment::part(doc, job.at.bytes, sep, pen, p as usize, 1, 0, 0),
        Cell::Null => segment::part(doc, job.at.bytes, sep, pen, p as usize, 1, 0, 0),
        Cell::Bytes(start, len) => segment::part(
            doc,
            job.at.bytes,
            sep,
            pen,
            p as usize,
            1,
            start,
            len,
        ),
        Cell::Int(bits) => cells::put_text(doc, sep, pen, p, 1, cells::int_text(bits)),
        Cell::Wide(lo, hi, scale) => {
            cells::put_text(doc, sep, pen, p, 1, cells::decimal_text(lo, hi, scale))
        }
        Cell::Days(_) => put_said(doc, job, sep, s, pen, p, c, cell),
        Cell::Seconds(_) => put_said(doc, job, sep, s, pen, p, c, cell),
    }
}

// The text of a planned element at p.
fn put_source(
    doc: &mut [u8],
    job: Job,
    sep: Separators,
    s: Planned,
    pen: Pen,
    e: ElementPlan,
    p: u32,
    r: RowId,
) -> Pen
    requires { Of job.at.bytes.now s }
    ensures { Penned (placed sep pen p 1 (text_in job.entry.at.bytes.now s p r.0 (element_of job.entry.at.bytes.now e)).text) pen.at result doc.old doc.new }
{
    let v = e.value;
    let c = e.component;
    let source = places::source_of(v);
    match source {
        Source::Cell(n) => {
            let cell = tables::data::cell(job.at, s.table, n, r);
            put_cell(doc, job, sep, s, pen, p, c, cell)
        }
        Source::Code(code) => segment::part(
            doc,
            job.at.bytes,
            sep,
            pen,
            p as usize,
            1,
            code.start,
            code.len,
        ),
    }
}

// The text of a planned element for row number k, if it has a place.
fn put_element(
    doc: &mut [u8],
    job: Job,
    sep: Separators,
    s: Planned,
    pen: Pen,
    e: ElementPlan,
    k: u32,
    r: RowId,
) -> Pen
    requires { Of job.at.bytes.now s × (e.element ≤ 255) × (k < 256) }
    ensures { Fed sep (element_put job.entry.at.bytes.now s k r.0 (element_of job.entry.at.bytes.now e)).parts pen doc.old result doc.new }
{
    let place = places::place_of(e, s.step, k);
    match place {
        None => pen,
        Some(p) => put_source(doc, job, sep, s, pen, e, p, r),
    }
}

// The texts of row number k.
fn put_row(doc: &mut [u8], job: Job, sep: Separators, s: Planned, pen: Pen, k: u32, r: RowId) -> Pen
    requires { Of job.at.bytes.now s × (k < 256) }
    ensures { Fed sep (row_puts job.entry.at.bytes.now s k r.0 (plans_of job.entry.at.bytes.now s)).parts pen doc.old result doc.new }
{
    let mut t = pen;
    let mut at = s.first;
    for _i in 0..s.count {
        let e = read::element_at(job.at.bytes, at);
        t = put_element(doc, job, sep, s, t, e, k, r);
        at = e.next;
    }
    t
}

// The texts of so many rows.
fn put_rows(doc: &mut [u8], chunk: Chunk, sep: Separators, pen: Pen) -> Pen
    requires { Of chunk.job.at.bytes.now chunk.segment }
    ensures { Fed sep (parts_in chunk.entry) pen doc.old result doc.new }
{
    let mut t = pen;
    for k in 0..chunk.count() {
        let r = RowId(chunk.rows[k as usize]);
        t = put_row(doc, chunk.job, sep, chunk.segment, t, k, r);
    }
    t
}

// The segment of a chunk whose parts come in order: its pen ends at the last filled element.
pub fn put_ordered(doc: &mut [u8], at: usize, chunk: Chunk, sep: Separators) -> usize
    requires { Of chunk.job.at.bytes.now chunk.segment × Ordered (parts_in chunk) }
    ensures { Stored doc.old at (joined sep (id_in chunk.entry) (sorted (parts_in chunk.entry))) result doc.new }
{
    let id = chunk.segment.id;
    let pen = segment::begin(doc, at, chunk.job.at.bytes, id.start, id.len);
    let end = put_rows(doc, chunk, sep, pen);
    segment::close(doc, sep, end, end.elements)
}
