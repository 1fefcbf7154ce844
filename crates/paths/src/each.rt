// The tests of each table, of each loop and of each planned segment, condition by condition.
ghost use Rattle.std.specs.Prelude.{◌≡◌, ◌<◌};
ghost use Rattle.walk.specs.Check.{each_below, planned};
ghost use Rattle.paths.specs.Tests.{each_table, each_loop, one_row_loop, names_plain, parent_plain, segment_ordered, loop_ordered, row_fits, repeat_planned, loop_anchored, HowOften};
ghost use Rattle.nest.specs.Job.{outline_by, job_by};
ghost use Rattle.format.specs.Layout.{segment_item};
ghost use Rattle.format.specs.Orders.{order_of};

use crate::below::each_from_last;
use crate::counts::{kind, loops, parent_plain, plain_named, tables};
use crate::order::{occurs, once_seen, only_planned, order_loops, segments_seen};
use crate::repeats::{anchored, one_row_loop, repeat_planned};
use crate::up::row_fits;
use nest::Job;
use spec::ids::{LoopId, TableId};

// Row loops: every table without repeat segment has one.
pub fn tables_once(job: Job) -> bool
    ensures { result ≡ each_table (outline_by job.entry) (one_row_loop (outline_by job.entry)) }
{
    each_from_last(tables(job), |t| one_row_loop(job, TableId(t)))
}

#[tactic(auto, unfolding(crate::specs::Tests::names_plain))]
fn loop_plain(job: Job, l: LoopId) -> bool
    requires { l.0 < 32 }
    ensures { result ≡ names_plain (outline_by job.entry) l.0 }
{
    plain_named(job, kind(job, l))
}

// Row loops: no loop names a repeat table, or one that the spec lacks.
pub fn loops_plain(job: Job) -> bool
    ensures { result ≡ each_loop (outline_by job.entry) (names_plain (outline_by job.entry)) }
{
    each_from_last(loops(job), |l| loop_plain(job, LoopId(l)))
}

// Entries and orders: every parent has no repeat segment.
pub fn parents_plain(job: Job) -> bool
    ensures { result ≡ each_table (outline_by job.entry) (parent_plain (outline_by job.entry)) }
{
    each_from_last(tables(job), |t| parent_plain(job, TableId(t)))
}

// Of planned segment i of loop l, where it is known how often each below 32 stands in the order.
#[tactic(auto, unfolding(crate::specs::Tests::segment_ordered))]
fn segment_ordered(job: Job, l: LoopId, i: u32, seen: [u32; 32]) -> bool
    requires { (l.0 < 32) × HowOften segment_item (order_of (job_by job) l.0) seen }
    ensures { result ≡ segment_ordered (outline_by job.entry) l.0 i }
{
    once_seen(job, l, i, seen) && occurs(job, l, i)
}

fn segments_ordered(job: Job, l: LoopId) -> bool
    requires { l.0 < 32 }
    ensures { result ≡ each_below (planned (outline_by job.entry) l.0) (segment_ordered (outline_by job.entry) l.0) }
{
    let seen = segments_seen(job, l);
    each_from_last(
        plan::planned::planned_count(job.at, l),
        |i| segment_ordered(job, l, i, seen),
    )
}

#[tactic(auto, unfolding(crate::specs::Tests::loop_ordered))]
fn loop_ordered(job: Job, l: LoopId) -> bool
    requires { l.0 < 32 }
    ensures { result ≡ loop_ordered (outline_by job.entry) l.0 }
{
    order_loops(job, l) && segments_ordered(job, l) && only_planned(job, l)
}

// Entries and orders: every order lists each child loop and each planned segment once, and nothing more.
pub fn loops_ordered(job: Job) -> bool
    ensures { result ≡ each_loop (outline_by job.entry) (loop_ordered (outline_by job.entry)) }
{
    each_from_last(loops(job), |l| loop_ordered(job, LoopId(l)))
}

// Above a row loop: what stands above every row loop fits its table.
pub fn loops_fit(job: Job) -> bool
    ensures { result ≡ each_loop (outline_by job.entry) (row_fits (outline_by job.entry)) }
{
    each_from_last(loops(job), |l| row_fits(job, LoopId(l)))
}

// Repeat loops: every row loop that anchors a repeat table plans one repeat segment of it.
pub fn tables_planned(job: Job) -> bool
    ensures { result ≡ each_table (outline_by job.entry) (repeat_planned (outline_by job.entry)) }
{
    each_from_last(tables(job), |t| repeat_planned(job, TableId(t)))
}

fn segments_anchored(job: Job, l: LoopId) -> bool
    requires { l.0 < 32 }
    ensures { result ≡ loop_anchored (outline_by job.entry) l.0 }
{
    each_from_last(
        plan::planned::planned_count(job.at, l),
        |i| anchored(job, l, i),
    )
}

// Repeat loops: no other repeat segment is planned.
pub fn loops_anchored(job: Job) -> bool
    ensures { result ≡ each_loop (outline_by job.entry) (loop_anchored (outline_by job.entry)) }
{
    each_from_last(loops(job), |l| segments_anchored(job, LoopId(l)))
}
