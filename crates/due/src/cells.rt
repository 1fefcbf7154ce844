// The cells that loops and segments look at.
ghost use Rattle.std.specs.Prelude.{ℕ, ◌≡◌, ◌<◌, ◌^◌, Bool, List, length, drop};
ghost use Rattle.format.specs.Ask.{planned_of, data_of};
ghost use Rattle.column.specs.Cell.{segment_cell, same_answer};
ghost use Rattle.plan.specs.Answers.{instances_of, source_of, value_of};
ghost use Rattle.nest.specs.Lists.{is, some_of};
ghost use Rattle.nest.specs.Outline.{inside_table, source_table};
ghost use Rattle.nest.specs.OfJob.{kind_in, source_in, column_in, columns_in};
ghost use Rattle.plan.specs.Planned.{PlannedIs};
ghost use Rattle.plan.specs.Elements.{Elements, ElementStep};
ghost use Rattle.nest.specs.Seek.{AnswersAs};
ghost use Rattle.walk.specs.Tour.{is_opener};
ghost use Rattle.due.specs.Cells.{has_value, differ, groups_in, repeats_in};
ghost use Rattle.nest.specs.Job.{job_by};

use nest::Job;
use plan::answers::{ElementPlan, Instances, Planned, Source, ValueSource};
use spec::ids::{LoopId, RowId, TableId};

// Whether a column has a value in a row.
pub fn has_value(job: Job, t: TableId, column: u32, r: RowId) -> bool
    ensures { result ≡ has_value (job_by job.entry) t.0 r.0 column }
{
    let cell = tables::data::cell(job.at, t, column, r);
    !column::data::is_null(cell)
}

// Whether two rows differ in a column.
pub fn differs(job: Job, t: TableId, column: u32, a: RowId, b: RowId) -> bool
    ensures { result ≡ differ (job_by job.entry) t.0 a.0 b.0 column }
{
    let x = tables::data::cell(job.at, t, column, a);
    let y = tables::data::cell(job.at, t, column, b);
    !column::same::same(job.at.bytes, x, y)
}

// Whether the `segment` cells of two rows agree.
pub fn same_segment(job: Job, t: TableId, a: RowId, b: RowId) -> bool
    ensures { result ≡ same_answer (segment_cell (data_of (job_by job.entry) t.0) a.0) (segment_cell (data_of (job_by job.entry) t.0) b.0) }
{
    let x = tables::data::segment_cell(job.at, t, a);
    let y = tables::data::segment_cell(job.at, t, b);
    column::same::same(job.at.bytes, x, y)
}

// Whether the column that a planned value names passes; it may name none.
pub fn column_passes<F: Fn(u32) -> bool>(v: ValueSource, passes: &F) -> bool
    requires { (c : ℕ) → c < 2 ^ 32 → F.pre passes.now c }
    ensures { (b : List ℕ) (p : ℕ → Bool) → AnswersAs (F.post passes.now) p (2 ^ 32) → result ≡ some_of p (column_in (value_of b v)) }
{
    match v {
        ValueSource::Column(n) => passes(n),
        _ => false,
    }
}

// Element k of planned segment i of loop l, which stands at p.
pub fn element(job: Job, l: LoopId, i: u32, k: u32, p: usize) -> ElementPlan
    requires { (k < length (planned_of (job_by job) l.0 i).elements) × Elements job.at.bytes.now p (drop k (planned_of (job_by job) l.0 i).elements) }
    ensures { ElementStep job.entry.at.bytes.now k (planned_of (job_by job.entry) l.0 i).elements result }
{
    plan::read::element_at(job.at.bytes, p)
}

// Whether one of the columns that planned segment i of loop l, which is s, names passes.
pub fn some_column<F: Fn(u32) -> bool>(job: Job, l: LoopId, i: u32, s: Planned, passes: F) -> bool
    requires planned { PlannedIs job.at.bytes.now l.0 i s }
    requires callable { (c : ℕ) → c < 2 ^ 32 → F.pre passes c }
    ensures { (p : ℕ → Bool) → AnswersAs (F.post passes) p (2 ^ 32) → result ≡ some_of p (columns_in (planned_of (job_by job.entry) l.0 i)) }
{
    let mut p = s.first;
    for k in 0..s.count {
        let e = element(job, l, i, k, p);
        if column_passes(e.value, &passes) {
            return true;
        }
        p = e.next;
    }
    false
}

// The table of a loop whose instances are groups.
pub fn group_table(k: Instances) -> Option<TableId>
    ensures { result ≡ groups_in (instances_of k) }
{
    match k {
        Instances::Groups(t) => Some(t),
        _ => None,
    }
}

// The table of a repeat segment.
pub fn repeat_table(s: Source) -> Option<TableId>
    ensures { result ≡ repeats_in (source_of s) }
{
    match s {
        Source::Repeat(t) => Some(t),
        _ => None,
    }
}

// Whether the instances of a loop stand inside a row of table t.
pub fn stands_inside(k: Instances, t: TableId) -> bool
    ensures { result ≡ is (inside_table (kind_in (instances_of k))) t.0 }
{
    match k {
        Instances::Inside(u) => t == u,
        _ => false,
    }
}

// Whether a planned segment is filled by a row of table t.
pub fn filled_by(s: Source, t: TableId) -> bool
    ensures { result ≡ is (source_table (source_in (source_of s))) t.0 }
{
    match s {
        Source::Row(u) => t == u,
        _ => false,
    }
}

// Whether a planned segment is the trigger of an envelope loop.
pub fn is_opener(s: Source) -> bool
    ensures { result ≡ is_opener (source_in (source_of s)) }
{
    matches!(s, Source::Envelope)
}
