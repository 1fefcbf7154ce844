// How many instances the walk enters, up to one more than the limit of refusal 6, and a bound that mostly settles whether they are too many. A level of loops
// is a level of calls: the instances of a loop and the items of an order are gone through by loops.
#![tactic(auto)]

ghost use Rattle.std.specs.Prelude.{◌≡◌, true, [], ℕ, ◌+◌, ◌≤◌, ◌<◌, min, ltb};
ghost use Rattle.nest.specs.Rising.{Climbs};
ghost use Rattle.nest.specs.Outline.{item_loops, order_of};
ghost use Rattle.walk.specs.Nested.{Sound};
ghost use Rattle.walk.specs.Contexts.{context_by};
ghost use Rattle.walk.specs.Tour.{enters_in, visits, census};
ghost use Rattle.walk.specs.Census.{too_many};
ghost use Rattle.census.specs.Entered.{entered_below};
ghost use Rattle.census.specs.Bounds.{held_before, Fan, Width, AtMost};
ghost use Rattle.nest.specs.Job.{outline_by};

use instances::Cursor;
use nest::TableRows;
use nest::order::rises;
use plan::answers::{Instances, Item};
use spec::ids::{LoopId, TableId};
use walk::{Context, Nest};

// Counts stop here.
const TOO_MANY: u32 = 65537;

// A count, and whether the loop is a leaf: its order names no loop.
#[derive(Clone, Copy)]
struct Count {
    n: u32,
    leaf: bool,
}

// The count n, and the instances that are entered below an instance of loop l in context c, `height` levels deep. (`Sound`: see `instances::kinds`.)
#[cycle(below_entered)]
fn below(nest: Nest, l: LoopId, c: Context, height: u32, n: u32) -> Count
    requires { Sound (outline_by nest.job) (context_by c) × (l.0 < 32) × (n ≤ too_many) }
    ensures { (result.n ≡ min (n + entered_below (outline_by nest.entry.job) height l.0 (context_by c)) too_many) × (result.leaf ≡ true → item_loops (order_of (outline_by nest.entry.job) l.0) ≡ []) }
{
    let count = plan::layout::order_count(nest.job.at, l);
    let mut m = n;
    let mut leaf = true;
    for i in 0..count {
        match plan::layout::item(nest.job.at, l, i) {
            Item::Segment(_) => {}
            Item::Loop(k) => {
                m = entered(nest, k, c, height, m);
                leaf = false;
            }
        }
    }
    Count { n: m, leaf }
}

// The count n, and the instances that are entered by loop l in context c, `height` levels deep. Past the limit it looks no further. Below a leaf nothing is entered,
// which its first instance shows.
#[cycle(below_entered)]
fn entered(nest: Nest, l: LoopId, c: Context, height: u32, n: u32) -> u32
    requires { Sound (outline_by nest.job) (context_by c) × (l.0 < 32) × (n ≤ too_many) }
    ensures { result ≡ min (n + enters_in (visits (outline_by nest.entry.job) height l.0 (context_by c))) too_many }
{
    if height == 0 {
        return n;
    }
    let mut m = n;
    let mut leaf = false;
    let mut cur = instances::instances(nest, l, c, height);
    // the count ends at the limit, wherever the instances stand
    while m < TOO_MANY {
        let Some(next) = instances::next_instance(nest, cur) else {
            return m;
        };
        let with = walk::one_more(m);
        if leaf {
            m = with;
        } else {
            let inner = instances::context_in(cur, next);
            let b = below(nest, l, inner, height - 1, with);
            m = b.n;
            leaf = b.leaf;
        }
        cur = instances::behind(cur, next);
    }
    m
}

// The number of instances that the walk enters, or 65,537 where there are more than 65,536.
fn census(nest: Nest) -> u32
    ensures { result ≡ min (census (outline_by nest.entry.job)) too_many }
{
    let count = spec::loops::root_count(nest.job.at);
    let height = spec::loops::loop_count(nest.job.at);
    let c = walk::outside();
    let mut n: u32 = 0;
    for i in 0..count {
        let l = spec::loops::root(nest.job.at, i);
        n = entered(nest, l, c, height, n);
    }
    n
}

// Where the rows climb, those that hang on one row are a run: the longest has no fewer rows than hang on any.
fn longest(all: TableRows) -> u32
    requires { Climbs all.array.now all.base all.rows × (all.rows ≤ 4096) }
    ensures { (result ≤ all.entry.rows) × ((p : ℕ) → held_before all.entry.array.now all.entry.base all.entry.rows p ≤ result) }
{
    let mut last: u32 = 0;
    let mut run: u32 = 0;
    let mut best: u32 = 0;
    for k in 0..all.rows {
        let above = all.above(k);
        if above == last {
            run = run + 1;
        } else {
            last = above;
            run = 1;
        }
        best = best.max(run);
    }
    best
}

// No context has more rows of table t.
fn fan(nest: Nest, t: TableId) -> u32
    ensures { Fan (outline_by nest.entry.job) t.0 result }
{
    let rows = tables::data::row_count(nest.job.at, t);
    let parent = spec::tables::table_parent(nest.job.at, t);
    match parent {
        Some(_) if rises(nest.array, t) => {
            let base = tables::data::first_row(nest.job.at, t) as usize;
            longest(TableRows {
                array: nest.array,
                base,
                rows: rows as usize,
            })
        }
        _ => rows,
    }
}

// No context has more instances of loop l.
fn width(nest: Nest, l: LoopId) -> u32
    requires { l.0 < 32 }
    ensures { Width (outline_by nest.entry.job) l.0 result }
{
    let kind = plan::planned::instances(nest.job.at, l);
    match kind {
        Instances::Absent => 0,
        Instances::Envelope => 1,
        Instances::Rows(t) => fan(nest, t),
        Instances::Inside(_) => 1,
        Instances::Groups(t) => fan(nest, t),
        Instances::Implied => 1,
    }
}

// In no context are more instances entered by loop l, `height` levels deep, as far as the limit.
fn most(nest: Nest, l: LoopId, height: u32) -> u32
    requires { l.0 < 32 }
    ensures { AtMost (outline_by nest.entry.job) height l.0 result }
{
    if height == 0 {
        return 0;
    }
    let w = width(nest, l);
    let count = plan::layout::order_count(nest.job.at, l);
    let mut s: u32 = 1;
    for i in 0..count {
        match plan::layout::item(nest.job.at, l, i) {
            Item::Segment(_) => {}
            Item::Loop(k) => {
                let m = most(nest, k, height - 1);
                s = (s + m).min(TOO_MANY);
            }
        }
    }
    (w * s).min(TOO_MANY)
}

// The same of the whole walk.
fn bound(nest: Nest) -> u32
    ensures { min (census (outline_by nest.entry.job)) too_many ≤ result }
{
    let count = spec::loops::root_count(nest.job.at);
    let height = spec::loops::loop_count(nest.job.at);
    let mut n: u32 = 0;
    for i in 0..count {
        let l = spec::loops::root(nest.job.at, i);
        let m = most(nest, l, height);
        n = (n + m).min(TOO_MANY);
    }
    n
}

// Whether the walk enters more than 65,536 instances. They are counted only where the bound leaves it open.
pub fn crowded(nest: Nest) -> bool
    ensures { result ≡ ltb 65536 (census (outline_by nest.entry.job)) }
{
    TOO_MANY <= bound(nest) && TOO_MANY <= census(nest)
}
