// A row of a chunk: the findings on its cells, and their trace entries.
ghost use Rattle.std.specs.Prelude.{◌≡◌, true, [], ◌≤◌, ◌<◌};
ghost use Rattle.lent.specs.Window.{Noted};
ghost use Rattle.format.specs.Sections.{job_of};
ghost use Rattle.format.specs.Passed.{Passed};
ghost use Rattle.format.specs.Refusal.{separators};
ghost use Rattle.column.specs.Cell.{or_null};
ghost use Rattle.column.specs.Answers.{cell_at};
ghost use Rattle.texts.specs.Reason.{Width};
ghost use Rattle.plan.specs.Answers.{element_of};
ghost use Rattle.nest.specs.Finding.{Origin, Place};
ghost use Rattle.emit.specs.Puts.{cell_text, put_cell};
ghost use Rattle.emit.specs.Written.{words_of, tried};
ghost use Rattle.emit.specs.Did.{Within};
ghost use Rattle.repeat_segment.specs.Planned.{Of, id_of, plans_of};
ghost use Rattle.repeat_segment.specs.Places.{element_put, row_puts};
ghost use Rattle.repeat_segment.specs.Filled.{CellNoted, Filled, found_on};
ghost use Rattle.nest.specs.Job.{job_by};

use crate::places;
use crate::places::Source;
use crate::planned::Planned;
use column::Cell;
use emit::findings::Delimiters;
use emit::state::Counts;
use emit::{cells, findings, signs};
use nest::Job;
use plan::answers::ElementPlan;
use plan::read;
use spec::ids::RowId;

// Whether a cell has no finding wherever it stands: null, a number, or bytes that hold no separator.
fn quiet(job: &[u8], cell: Cell, d: Delimiters) -> bool
    requires { Passed job.now × (tried d ≡ separators (job_of job.now).envelope) }
    ensures { (o : Origin) (p : Place) (max : Width) → result ≡ true → found_on o p (cell_text (or_null (cell_at job.now cell)) max) (tried d) ≡ [] }
{
    match cell {
        Cell::None => true,
        Cell::Null => true,
        Cell::Bytes(start, len) => {
            if findings::stretch_holds(job, start, len, d) {
                return false;
            }
            true
        }
        Cell::Int(_) => true,
        Cell::Wide(_, _, _) => true,
        Cell::Days(_) => false,
        Cell::Seconds(_) => false,
    }
}

// The findings on the text of a cell at element p.
fn note_text(
    job: Job,
    findings: &mut [u64],
    at: usize,
    s: Planned,
    d: Delimiters,
    p: u32,
    component: Option<u32>,
    column: u32,
    r: RowId,
) -> usize
    requires { Of job.at.bytes.now s × (tried d ≡ separators (job_by job).envelope) }
    ensures { Noted findings.old at
        (words_of (put_cell (job_by job.entry) (id_of job.entry.at.bytes.now s) p component s.table.0 column r.0).findings) result findings.new }
{
    let x = cells::cell_text(job, s.id, s.table, r, p, component, column);
    if findings::silent(job.at.bytes, x, d) {
        return lent::more(at, 0);
    }
    let identifier = signs::id_number(job.at.bytes, s.id);
    let w = findings::cell_spot(s.table, r, column, identifier, p, component);
    findings::note_cell(findings, at, job.at.bytes, x, w, d)
}

// The findings on a cell at element p; its text is made only where it may have one.
fn note_cell(
    job: Job,
    findings: &mut [u64],
    at: usize,
    s: Planned,
    d: Delimiters,
    p: u32,
    component: Option<u32>,
    column: u32,
    r: RowId,
) -> usize
    requires { Of job.at.bytes.now s × (tried d ≡ separators (job_by job).envelope) }
    ensures { Noted findings.old at
        (words_of (put_cell (job_by job.entry) (id_of job.entry.at.bytes.now s) p component s.table.0 column r.0).findings) result findings.new }
{
    let cell = tables::data::cell(job.at, s.table, column, r);
    if quiet(job.at.bytes, cell, d) {
        return lent::more(at, 0);
    }
    note_text(job, findings, at, s, d, p, component, column, r)
}

// The findings on the cell of a planned element for row number k: where they end. None where it has no cell.
fn note_element(
    job: Job,
    findings: &mut [u64],
    at: usize,
    s: Planned,
    d: Delimiters,
    e: ElementPlan,
    k: u32,
    r: RowId,
) -> Option<usize>
    requires { Of job.at.bytes.now s × (tried d ≡ separators (job_by job).envelope) × (e.element ≤ 255) × (k < 256) }
    ensures { CellNoted (element_put job.entry.at.bytes.now s k r.0 (element_of job.entry.at.bytes.now e)) at result findings.old findings.new }
{
    let p = places::place_of(e, s.step, k)?;
    let c = e.component;
    match places::source_of(e.value) {
        Source::Cell(n) => Some(note_cell(job, findings, at, s, d, p, c, n, r)),
        Source::Code(_) => None,
    }
}

// The planned elements one by one; each cell has a trace entry.
pub fn fill_elements(
    job: Job,
    findings: &mut [u64],
    state: Counts,
    s: Planned,
    d: Delimiters,
    k: u32,
    r: RowId,
) -> Counts
    requires { Of job.at.bytes.now s × (tried d ≡ separators (job_by job).envelope) × (k < 256) × Within state }
    ensures { Filled (row_puts job.entry.at.bytes.now s k r.0 (plans_of job.entry.at.bytes.now s)) state result findings.old findings.new }
{
    let mut at = s.first;
    let mut found = state.findings;
    let mut entries = lent::more(state.entries, 0);
    for _i in 0..s.count {
        let e = read::element_at(job.at.bytes, at);
        at = e.next;
        if let Some(end) = note_element(job, findings, found, s, d, e, k, r) {
            found = end;
            entries = lent::more(entries, 1);
        }
    }
    let mut n = state;
    n.findings = found;
    n.entries = entries;
    n
}
