// Orders of a complete plan (docs/RULES.md, "Entries and orders").
ghost use Rattle.std.specs.Prelude.{◌≡◌, ◌<◌, eqb, ltb, length};
ghost use Rattle.format.specs.Orders.{order_of};
ghost use Rattle.plan.specs.Answers.{item_of};
ghost use Rattle.nest.specs.Lists.{sum, times};
ghost use Rattle.nest.specs.Outline.{loop_of, segment_of, item_segments, order_of as order_in};
ghost use Rattle.walk.specs.Check.{each_below, planned};
ghost use Rattle.format.specs.Layout.{segment_item, loop_item};
ghost use Rattle.paths.specs.Tests.{loop_named, segment_named, HowOften, same, same_item, segment_below, order_right, only_planned};
ghost use Rattle.nest.specs.Job.{outline_by, job_by};

use crate::below::{each, each_from_last, how_many, how_often};
use crate::counts::loops;
use nest::Job;
use plan::answers::Item;
use spec::ids::LoopId;

// Whether two items are the same.
fn same_item(x: Item, v: Item) -> bool
    ensures { result ≡ same (item_of x) (item_of v) }
{
    v == x
}

// How often an item stands in the order of a loop.
fn item_times(job: Job, l: LoopId, x: Item) -> u32
    requires { l.0 < 32 }
    ensures { result ≡ sum (same_item (item_of x)) (order_of (job_by job.entry) l.0) }
{
    let n = plan::layout::order_count(job.at, l);
    how_many(n, |i| same_item(x, plan::layout::item(job.at, l, i)))
}

// How often loop k is a child of loop l.
fn child_times(job: Job, l: LoopId, k: u32) -> u32
    ensures { result ≡ times k (loop_of (outline_by job.entry) l.0).children }
{
    let n = spec::loops::child_count(job.at, l);
    how_many(n, |i| spec::loops::child(job.at, l, i).0 == k)
}

// The loop that an item names.
fn item_loop(v: Item) -> Option<u32>
    ensures { result ≡ loop_named (item_of v) }
{
    match v {
        Item::Loop(k) => Some(k.0),
        Item::Segment(_) => None,
    }
}

// The planned segment that an item names.
fn item_segment(v: Item) -> Option<u32>
    ensures { result ≡ segment_named (item_of v) }
{
    match v {
        Item::Segment(k) => Some(k),
        Item::Loop(_) => None,
    }
}

// How often each of the loops below 32 stands in the order of loop l, in one pass through it.
fn loops_seen(job: Job, l: LoopId) -> [u32; 32]
    requires { l.0 < 32 }
    ensures { HowOften loop_item (order_of (job_by job.entry) l.0) result }
{
    let n = plan::layout::order_count(job.at, l);
    how_often(n, |i| item_loop(plan::layout::item(job.at, l, i)))
}

// How often each of the planned segments below 32 stands in the order of loop l, in one pass through it.
pub fn segments_seen(job: Job, l: LoopId) -> [u32; 32]
    requires { l.0 < 32 }
    ensures { HowOften segment_item (order_of (job_by job.entry) l.0) result }
{
    let n = plan::layout::order_count(job.at, l);
    how_often(n, |i| item_segment(plan::layout::item(job.at, l, i)))
}

// Whether the order of loop l, which names loop k so often, does so as often as it is a child.
fn order_right(job: Job, l: LoopId, k: u32, named: u32) -> bool
    requires { named ≡ sum (same_item (loop_item k)) (order_of (job_by job) l.0) }
    ensures { result ≡ order_right (outline_by job.entry) l.0 k }
{
    named == child_times(job, l, k)
}

pub fn order_loops(job: Job, l: LoopId) -> bool
    requires { l.0 < 32 }
    ensures { result ≡ each_below (length (outline_by job.entry).loops) (order_right (outline_by job.entry) l.0) }
{
    let seen = loops_seen(job, l);
    each_from_last(loops(job), |k| order_right(job, l, k, seen[k as usize]))
}

// Whether planned segment i stands once in the order of loop l.
pub fn once_ordered(job: Job, l: LoopId, i: u32) -> bool
    requires { l.0 < 32 }
    ensures { result ≡ eqb (times i (item_segments (order_in (outline_by job.entry) l.0))) 1 }
{
    let n = item_times(job, l, Item::Segment(i));
    n == 1
}

// The same, where it is known how often each planned segment below 32 stands in the order.
pub fn once_seen(job: Job, l: LoopId, i: u32, seen: [u32; 32]) -> bool
    requires { (l.0 < 32) × HowOften segment_item (order_of (job_by job) l.0) seen }
    ensures { result ≡ eqb (times i (item_segments (order_in (outline_by job.entry) l.0))) 1 }
{
    if i < 32 {
        return seen[i as usize] == 1;
    }
    once_ordered(job, l, i)
}

// Whether an item names no segment from n on.
fn segment_below(v: Item, n: u32) -> bool
    ensures { result ≡ segment_below n (item_of v) }
{
    match v {
        Item::Segment(i) => i < n,
        Item::Loop(_) => true,
    }
}

// Whether the order of loop l names only planned segments.
pub fn only_planned(job: Job, l: LoopId) -> bool
    requires { l.0 < 32 }
    ensures { result ≡ only_planned (outline_by job.entry) l.0 }
{
    let most = plan::planned::planned_count(job.at, l);
    let n = plan::layout::order_count(job.at, l);
    each(n, |i| segment_below(plan::layout::item(job.at, l, i), most))
}

// Whether the spec has the occurrence that planned segment i of loop l names.
pub fn occurs(job: Job, l: LoopId, i: u32) -> bool
    requires { l.0 < 32 }
    ensures { result ≡ ltb (segment_of (outline_by job.entry) l.0 i).occurrence (loop_of (outline_by job.entry) l.0).occurrences }
{
    plan::planned::occurrence_of(job.at, l, i) < spec::loops::occurrence_count(job.at, l)
}
