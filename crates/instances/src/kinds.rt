// The instances of a loop by its kind: none, the context itself, or a list of rows.
ghost use Rattle.std.specs.Prelude.{◌≡◌, false, ◌<◌};
ghost use Rattle.plan.specs.Answers.{instances_of};
ghost use Rattle.nest.specs.OfJob.{kind_in};
ghost use Rattle.nest.specs.Outline.{row_count};
ghost use Rattle.format.specs.Ask.{plan_of};
ghost use Rattle.tables.specs.Parts.{rows_before};
ghost use Rattle.walk.specs.Nested.{Sound};
ghost use Rattle.walk.specs.Contexts.{context_by};
ghost use Rattle.instances.specs.declared.Left.TheVariants.{Nothing, Itself};
ghost use Rattle.instances.specs.Cursor.{rowless, rows_from, from_run, above_in, is_implied, shown_in, itself_if, Lists, OfLoop};
ghost use Rattle.nest.specs.Job.{outline_by, job_by};

use crate::rows::moved;
use crate::stretch::narrowed;
use crate::{Cursor, Left};
use due::shown;
use nest::Job;
use plan::answers::Instances;
use spec::ids::{LoopId, TableId};
use walk::{Context, Nest, is_plain, parent_is, row_of};

// No rows: no instance, or one in the context itself.
pub fn rowless(kind: Left, l: LoopId, c: Context) -> Cursor
    ensures { result ≡ rowless kind l c }
{
    Cursor {
        kind: kind,
        l: l,
        table: TableId(0),
        context: c,
        base: 0,
        rows: 0,
        above: 0,
        seen: 0,
        next: 0,
    }
}

// The row that the rows of table t hang on in context c, plus one, as in a cursor; 0 where the table has no parent. It asks
// that the context's rows are the job's (`Sound`).
fn above_in(job: Job, t: TableId, c: Context) -> Option<u32>
    requires { Sound (outline_by job) (context_by c) }
    ensures { result ≡ above_in (outline_by job.entry) t.0 (context_by c) }
{
    let Some(u) = spec::tables::table_parent(job.at, t) else {
        return Some(0);
    };
    let p = row_of(c, TableId(u))?;
    Some(p.0 + 1)
}

// All rows of table t that hang on `above`.
fn all_rows(job: Job, kind: Left, l: LoopId, t: TableId, c: Context, above: u32) -> Cursor
    ensures { result ≡ rows_from kind l t c (rows_before (job_by job.entry).tables t.0) (row_count (outline_by job.entry) t.0) above }
{
    let base = tables::data::first_row(job.at, t) as usize;
    let rows = tables::data::row_count(job.at, t) as usize;
    Cursor {
        table: t,
        base,
        rows,
        above,
        ..rowless(kind, l, c)
    }
}

// The same rows, looked for from the first of the context's run on. A table that is its own parent has another list in the run, and is gone through from its start.
fn from_run(job: Job, all: Cursor) -> Cursor
    ensures { result ≡ from_run (outline_by job.entry) all }
{
    let c = all.context;
    let t = all.table;
    let start = walk::start_in(c, t);
    if start == 0 {
        return all;
    }
    if parent_is(job, t, t) {
        return all;
    }
    match row_of(c, t) {
        Some(r) => moved(all, start, r.0 as usize),
        None => all,
    }
}

// The rows of table t in context c: an instance in each (`Rows`), or in each run of them (`Runs`).
fn listed(nest: Nest, kind: Left, l: LoopId, t: TableId, c: Context) -> Cursor
    requires { Sound (outline_by nest.job) (context_by c) × (l.0 < 32) }
    ensures { Lists (outline_by nest.entry.job) nest.entry.array.now kind l.0 t.0 (context_by c) result }
{
    if !is_plain(nest.job, t) {
        return rowless(Left::Nothing, l, c);
    }
    let Some(above) = above_in(nest.job, t, c) else {
        return rowless(Left::Nothing, l, c);
    };
    let all = all_rows(nest.job, kind, l, t, c, above);
    let run = from_run(nest.job, all);
    narrowed(nest, run)
}

// An `Inside` loop: the context itself, where it has a row of table t and the loop is shown there.
fn inside_itself(job: Job, l: LoopId, t: TableId, c: Context) -> Cursor
    requires { l.0 < 32 }
    ensures { result ≡ rowless (itself_if (shown_in (outline_by job.entry) l.0 t.0 (context_by c))) l c }
{
    let Some(r) = row_of(c, t) else {
        return rowless(Left::Nothing, l, c);
    };
    if shown(job, l, t, r) {
        rowless(Left::Itself, l, c)
    } else {
        rowless(Left::Nothing, l, c)
    }
}

// Whether a loop of this kind has an instance where one of its children has.
pub fn by_children(kind: Instances) -> bool
    ensures { result ≡ is_implied (kind_in (instances_of kind)) }
{
    matches!(kind, Instances::Implied)
}

// The instances of a loop of another kind.
pub fn by_kind(nest: Nest, kind: Instances, l: LoopId, c: Context) -> Cursor
    requires { Sound (outline_by nest.job) (context_by c) × (l.0 < 32) × (instances_of kind ≡ (plan_of (job_by nest.job) l.0).instances) × (is_implied (kind_in (instances_of kind)) ≡ false) }
    ensures { OfLoop (outline_by nest.entry.job) nest.entry.array.now l.0 (context_by c) result }
{
    match kind {
        Instances::Absent => rowless(Left::Nothing, l, c),
        Instances::Envelope => rowless(Left::Itself, l, c),
        Instances::Rows(t) => listed(nest, Left::Rows, l, t, c),
        Instances::Inside(t) => inside_itself(nest.job, l, t, c),
        Instances::Groups(t) => listed(nest, Left::Runs, l, t, c),
        Instances::Implied => rowless(Left::Nothing, l, c),
    }
}
