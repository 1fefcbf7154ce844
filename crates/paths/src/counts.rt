// Counts and kinds.
ghost use Rattle.std.specs.Prelude.{◌≡◌, ◌≤◌, ◌<◌, length, true, false};
ghost use Rattle.plan.specs.Answers.{instances_of, source_of};
ghost use Rattle.nest.specs.Lists.{is, on};
ghost use Rattle.nest.specs.Outline.{kind_of, table_parent, plain, repeated as repeatedIn, row_table};
ghost use Rattle.nest.specs.OfJob.{kind_in, source_in};
ghost use Rattle.walk.specs.Check.{rows_of, named, repeat_table, if_there};
ghost use Rattle.nest.specs.Job.{outline_by};

use nest::Job;
use nest::hang::row_table;
use plan::answers::{Instances, Source};
use spec::ids::{LoopId, TableId};
use walk::is_plain;

pub fn loops(job: Job) -> u32
    ensures { (result ≡ length (outline_by job.entry).loops) × (result ≤ 32) }
{
    spec::loops::loop_count(job.at)
}

pub fn tables(job: Job) -> u32
    ensures { (result ≡ length (outline_by job.entry).tables) × (result ≤ 16) }
{
    spec::tables::table_count(job.at)
}

// Whether a table of the spec has a repeat segment.
pub fn repeated(job: Job, t: TableId) -> bool
    ensures { result ≡ repeatedIn (outline_by job.entry) t.0 }
{
    t.0 < tables(job) && spec::tables::repeats(job.at, t)
}

// Where the instances of a loop come from.
pub fn kind(job: Job, l: LoopId) -> Instances
    requires { l.0 < 32 }
    ensures { kind_in (instances_of result) ≡ kind_of (outline_by job.entry) l.0 }
{
    plan::planned::instances(job.at, l)
}

// Whether a loop is a row loop of table t.
pub fn is_rows(k: Instances, t: TableId) -> bool
    ensures { result ≡ rows_of t.0 (kind_in (instances_of k)) }
{
    row_table(k) == Some(t.0)
}

// Whether a loop is a row loop of any table.
pub fn has_rows(k: Instances) -> bool
    ensures { result ≡ on (row_table (kind_in (instances_of k))) (λ u. true) false }
{
    row_table(k).is_some()
}

// Whether a segment repeats table t.
pub fn is_repeat(s: Source, t: TableId) -> bool
    ensures { result ≡ is (repeat_table (source_in (source_of s))) t.0 }
{
    match s {
        Source::Repeat(u) => t == u,
        _ => false,
    }
}

// Whether the table that a loop names, if it does, has no repeat segment.
pub fn plain_named(job: Job, k: Instances) -> bool
    ensures { result ≡ if_there (named (kind_in (instances_of k))) (plain (outline_by job.entry)) }
{
    match k {
        Instances::Rows(t) => is_plain(job, t),
        Instances::Groups(t) => is_plain(job, t),
        _ => true,
    }
}

// Whether the parent of a table, if it has one, has no repeat segment.
pub fn parent_plain(job: Job, t: TableId) -> bool
    ensures { result ≡ if_there (table_parent (outline_by job.entry) t.0) (plain (outline_by job.entry)) }
{
    match spec::tables::table_parent(job.at, t) {
        Some(u) => is_plain(job, TableId(u)),
        None => true,
    }
}
