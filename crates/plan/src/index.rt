// The region of the index that belongs to plan and layout, and how it is filled.
ghost use Rattle.std.specs.Prelude.{◌≡◌, List, ℕ, ◌+◌, ◌≤◌, length, get_or};
ghost use Rattle.codec.specs.Codec.{le};
ghost use Rattle.format.specs.Passed.{Passed};
ghost use Rattle.plan.specs.Index.{PlanFilled};
ghost use Rattle.plan.specs.Filling.{PlanLists, PlanInto, LayoutInto};

use codec::forms::{Flag, Items, Le, Les, Opt};
use codec::{Form, Section};
use format::{Instances, Item, LoopPlan, SegmentPlan};
use spec::Indexed;
use spec::read::{section, start};
use spec::region::list_into;

// Where the 33 numbers of each list begin:
pub const PLAN: usize = 1024;

pub const ORDER: usize = 1057;

pub const FORCED: usize = 1090;

pub const COLUMNS: usize = 1123;

pub const DEPTH: usize = 1156;

pub const CAPACITY: usize = 1189;
// The planned segments of loop 0; those of each other loop begin 33 later.
pub const SEGMENTS: usize = 1222;

// Stores the place of the plan of loop l and those of its planned segments, if it is among the first 32; answers the place behind it.
pub fn loop_plan_into(s: Section, index: &mut [u16], l: usize, p: usize) -> usize
    ensures { (start : ℕ) (old : List ℕ) → PlanLists s.entry.bytes.now s.entry.end start l p old index.old → PlanLists s.entry.bytes.now s.entry.end start (l + 1) result old index.new }
{
    if l < 32 {
        codec::put(index, PLAN + 1 + l, p);
        let at = Instances::ends_at(s, p);
        return list_into::<SegmentPlan>(s, index, SEGMENTS + l * 33, at);
    }
    LoopPlan::ends_at(s, p)
}

// Stores the places of the plan that stands at a place.
pub fn plan_into(s: Section, index: &mut [u16], at: usize)
    ensures { PlanInto s.entry.bytes.now s.entry.end at index.old index.new }
{
    let n = s.count_at(at);
    let mut p = s.le_at(4, at);
    for l in 0..n {
        p = loop_plan_into(s, index, l, p);
    }
    codec::put(index, PLAN, at);
}

// Stores the places of the layout that stands at a place.
pub fn layout_into(s: Section, index: &mut [u16], at: usize)
    ensures { LayoutInto s.entry.bytes.now s.entry.end at index.old index.new }
{
    let forced = list_into::<Items<Item>>(s, index, ORDER, at);
    let columns = list_into::<Items<Flag>>(s, index, FORCED, forced);
    let depth = list_into::<Les<4>>(s, index, COLUMNS, columns);
    let capacity = list_into::<Opt<Le<4>>>(s, index, DEPTH, depth);
    codec::put(index, CAPACITY, capacity);
}

// Fills the region.
pub fn fill(job: &[u8], index: &mut [u16])
    requires { Passed job.now }
    ensures { PlanFilled job.now index.old index.new }
{
    let plan = start(job, 4);
    let layout = start(job, 8);
    plan_into(section(job, 8), index, plan as usize);
    layout_into(section(job, 12), index, layout as usize);
}

// How many items the list has whose place is number k of the index.
pub fn list_count(job: Indexed, k: usize) -> u32
    requires there { get_or job.index.now k 0 + 4 ≤ length job.bytes.now }
    ensures { result ≡ le 4 job.entry.bytes.now (get_or job.entry.index.now k 0) }
{
    let p = codec::place(job.index, k);
    codec::num_in(job.bytes, p) as u32
}
