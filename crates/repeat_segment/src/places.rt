// Where a planned element puts its text for a row of the chunk, and that text.
ghost use Rattle.std.specs.Prelude.{◌≡◌, List, ℕ, ◌+◌, ◌*◌, ◌≤◌, ◌<◌, eqb, Some, None};
ghost use Rattle.segment.specs.Parts.{pick};
ghost use Rattle.plan.specs.Answers.{element_of};
ghost use Rattle.emit.specs.Written.{Writes};
ghost use Rattle.repeat_segment.specs.Planned.{Of};
ghost use Rattle.repeat_segment.specs.Places.{place_in, source_in, text_in, Lowest};

use crate::planned::Planned;
use emit::cells;
use emit::cells::Written;
use nest::Job;
use plan::answers::{ElementPlan, ValueSource};
use spec::ids::{RowId, Stretch};

// ---- places

fn first_only(element: u32, k: u32) -> Option<u32>
    ensures { result ≡ pick (eqb k 0) (Some element) None }
{
    (k == 0).then_some(element)
}

pub fn moved(element: u32, step: u32, k: u32) -> u32
    requires { (element ≤ 255) × (step ≤ 255) × (k < 256) }
    ensures { result ≡ element + k * step }
{
    element + k * step
}

// The place of a planned element for row number k. The three bounds are for the sum: of an element read from the job, of the table's step, and of k,
// which counts the rows of a chunk.
pub fn place_of(e: ElementPlan, step: u32, k: u32) -> Option<u32>
    requires { (e.element ≤ 255) × (step ≤ 255) × (k < 256) }
    ensures { (b : List ℕ) → result ≡ place_in step k (element_of b e) }
{
    let v = e.value;
    match v {
        ValueSource::Column(_) => first_only(e.element, k),
        ValueSource::Group(_) => Some(moved(e.element, step, k)),
        ValueSource::Code(_) => first_only(e.element, k),
    }
}

// The row number for which an element moved by the step stands at another place p, or 256: no chunk has a row of that number.
fn group_row(element: u32, step: u32, p: u32) -> u32
    ensures { (result < 256 → element + result * step ≡ p) × ((m : ℕ) → m < result → element + m * step ≡ p → element ≡ p) }
{
    if step == 0 {
        return 256;
    }
    if p < element {
        return 256;
    }
    if (p - element) % step == 0 {
        return (p - element) / step;
    }
    256
}

// The lowest row number for which a planned element stands at p; 256 and more: none. Callers compare it with the count of the rows.
pub fn row_at(e: ElementPlan, step: u32, p: u32) -> u32
    ensures { (b : List ℕ) → Lowest step p result (element_of b e) }
{
    if e.element == p {
        return 0;
    }
    let v = e.value;
    match v {
        ValueSource::Column(_) => 256,
        ValueSource::Group(_) => group_row(e.element, step, p),
        ValueSource::Code(_) => 256,
    }
}

// ---- texts

// What gives a planned element its text: a column's cell, or a code.
#[derive(Clone, Copy)]
pub enum Source {
    Cell(u32),
    Code(Stretch),
}

pub fn source_of(v: ValueSource) -> Source
    ensures { result ≡ source_in v }
{
    match v {
        ValueSource::Column(n) => Source::Cell(n),
        ValueSource::Group(n) => Source::Cell(n),
        ValueSource::Code(code) => Source::Code(code),
    }
}

// The text of a planned element at element p.
pub fn text(job: Job, s: Planned, e: ElementPlan, p: u32, r: RowId) -> Written
    requires { Of job.at.bytes.now s }
    ensures { Writes job.entry.at.bytes.now result (text_in job.entry.at.bytes.now s p r.0 (element_of job.entry.at.bytes.now e)) }
{
    let v = e.value;
    let c = e.component;
    let source = source_of(v);
    match source {
        Source::Cell(n) => cells::cell_text(job, s.id, s.table, r, p, c, n),
        Source::Code(code) => cells::code_text(code),
    }
}
