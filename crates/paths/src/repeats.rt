// Row loops and repeat segments of a complete plan (docs/RULES.md, "Row loops" and "Repeat loops").
ghost use Rattle.std.specs.Prelude.{◌≡◌, ◌<◌, not, ◌||◌, eqb, ltb};
ghost use Rattle.plan.specs.Answers.{source_of};
ghost use Rattle.nest.specs.Lists.{is, times};
ghost use Rattle.nest.specs.Outline.{table_of, kind_of, segment_of, plain, repeated as repeatedIn};
ghost use Rattle.nest.specs.OfJob.{source_in};
ghost use Rattle.walk.specs.Check.{each_of, rows_of, repeat_table, if_there};
ghost use Rattle.paths.specs.Tests.{row_loops, repeats_in, anchors_in, planned_once};
ghost use Rattle.nest.specs.Job.{outline_by};

use crate::below::{each, how_many};
use crate::counts::{has_rows, is_repeat, is_rows, kind, loops, repeated};
use nest::Job;
use nest::seek::some;
use plan::answers::Source;
use spec::ids::{LoopId, TableId};
use walk::is_plain;

// Whether loop l is a row loop of table t.
fn enters_rows(job: Job, l: LoopId, t: TableId) -> bool
    requires { l.0 < 32 }
    ensures { result ≡ rows_of t.0 (kind_of (outline_by job.entry) l.0) }
{
    is_rows(kind(job, l), t)
}

// Whether planned segment i of loop l repeats table t.
fn repeats_table(job: Job, l: LoopId, i: u32, t: TableId) -> bool
    requires { l.0 < 32 }
    ensures { result ≡ is (repeat_table (segment_of (outline_by job.entry) l.0 i).source) t.0 }
{
    is_repeat(plan::planned::source(job.at, l, i), t)
}

fn row_loops(job: Job, t: TableId) -> u32
    ensures { result ≡ row_loops (outline_by job.entry) t.0 }
{
    how_many(loops(job), |l| enters_rows(job, LoopId(l), t))
}

// Whether a table without repeat segment has one row loop.
pub fn one_row_loop(job: Job, t: TableId) -> bool
    ensures { result ≡ not (plain (outline_by job.entry) t.0) || eqb (row_loops (outline_by job.entry) t.0) 1 }
{
    !is_plain(job, t) || row_loops(job, t) == 1
}

fn repeats_in(job: Job, t: TableId, l: LoopId) -> u32
    requires { l.0 < 32 }
    ensures { result ≡ repeats_in (outline_by job.entry) t.0 l.0 }
{
    let n = plan::planned::planned_count(job.at, l);
    how_many(n, |i| repeats_table(job, l, i, t))
}

// Whether loop l, if it is a row loop, plans one repeat segment of table t.
fn planned_once(job: Job, t: TableId, l: LoopId) -> bool
    requires { l.0 < 32 }
    ensures { result ≡ planned_once (outline_by job.entry) t.0 l.0 }
{
    !has_rows(kind(job, l)) || repeats_in(job, t, l) == 1
}

fn all_planned(job: Job, t: TableId) -> bool
    ensures { result ≡ each_of (table_of (outline_by job.entry) t.0).loops (planned_once (outline_by job.entry) t.0) }
{
    let n = spec::tables::table_loop_count(job.at, t);
    each(
        n,
        |i| planned_once(job, t, spec::tables::table_loop(job.at, t, i)),
    )
}

// Whether each row loop that anchors a repeat table plans one repeat segment of it.
pub fn repeat_planned(job: Job, t: TableId) -> bool
    ensures { result ≡ not (repeatedIn (outline_by job.entry) t.0) || each_of (table_of (outline_by job.entry) t.0).loops (planned_once (outline_by job.entry) t.0) }
{
    !repeated(job, t) || all_planned(job, t)
}

// Whether table t lists loop l.
fn lists(job: Job, l: LoopId, t: TableId) -> bool
    ensures { result ≡ ltb 0 (times l.0 (table_of (outline_by job.entry) t.0).loops) }
{
    let n = spec::tables::table_loop_count(job.at, t);
    some(n, |i| spec::tables::table_loop(job.at, t, i) == l)
}

#[tactic(auto, unfolding(crate::specs::Tests::anchors_in))]
fn anchors(job: Job, l: LoopId, t: TableId) -> bool
    requires { l.0 < 32 }
    ensures { result ≡ anchors_in (outline_by job.entry) l.0 t.0 }
{
    repeated(job, t) && lists(job, l, t) && has_rows(kind(job, l))
}

fn source_anchored(job: Job, l: LoopId, s: Source) -> bool
    requires { l.0 < 32 }
    ensures { result ≡ if_there (repeat_table (source_in (source_of s))) (anchors_in (outline_by job.entry) l.0) }
{
    match s {
        Source::Repeat(t) => anchors(job, l, t),
        _ => true,
    }
}

// Whether planned segment i of loop l, if it repeats a table, repeats one that the loop anchors.
pub fn anchored(job: Job, l: LoopId, i: u32) -> bool
    requires { l.0 < 32 }
    ensures { result ≡ if_there (repeat_table (segment_of (outline_by job.entry) l.0 i).source) (anchors_in (outline_by job.entry) l.0) }
{
    source_anchored(job, l, plan::planned::source(job.at, l, i))
}
