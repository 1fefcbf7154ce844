// The walk that writes: every instance of a loop that the rows give, its segments and child loops in the order of the layout, and its closer.
#![tactic(auto)]

ghost use Rattle.std.specs.Prelude.{◌<◌, length};
ghost use Rattle.lent.specs.Fit.{cap};
ghost use Rattle.nest.specs.Lists.{each};
ghost use Rattle.nest.specs.Outline.{order_of};
ghost use Rattle.walk.specs.Contexts.{context_by};
ghost use Rattle.walk.specs.Instances as I;
ghost use Rattle.walk.specs.Tour as T;
ghost use Rattle.emit.specs.Fold.{steps_out};
ghost use Rattle.emit.specs.Did.{state_of, Did, Small};
ghost use Rattle.run.specs.Went.{Walks, Went};
ghost use Rattle.nest.specs.Job.{outline_by, job_by};

use crate::closing::close;
use crate::own::enter_own;
use crate::planned::write_planned;
use emit::state::State;
use instances::{behind, context_in, instances, next_instance};
use plan::answers::Item;
use spec::ids::LoopId;
use walk::{Context, Nest};

mod closing;
mod own;
mod planned;
mod segments;

// How many segments some steps wrote, and how many instances of the loops directly below there were.
#[derive(Clone, Copy)]
struct Visited {
    pub written: usize,
    pub instances: usize,
}

// Every instance of loop l in a context, so many levels deep.
#[cycle(items_visits)]
fn visits(
    nest: Nest,
    doc: &mut [u8],
    segments: &mut [u64],
    findings: &mut [u64],
    stops: &mut [u64],
    s: &mut State,
    l: LoopId,
    c: Context,
    height: u32,
) -> Visited
    requires { Walks (outline_by nest.job) s.old l.0 c × (T.segments_in (T.visits (outline_by nest.job) height l.0 (context_by c)) < cap) }
    ensures { Went (job_by nest.entry.job) (T.visits (outline_by nest.entry.job) height l.0 (context_by c)) (length (I.instances (outline_by nest.entry.job) height l.0 (context_by c))) s.old s.new result
        doc.old doc.new segments.old segments.new findings.old findings.new stops.old stops.new }
{
    if height == 0 {
        return Visited {
            written: 0,
            instances: 0,
        };
    }
    let below = height - 1;
    let mut cur = instances(nest, l, c, height);
    let mut written: usize = 0;
    let mut n: usize = 0;
    // the cursor of the instances counts itself
    while let Some(next) = next_instance(nest, cur) {
        let d = context_in(cur, next);
        enter_own(nest, findings, stops, s, l, d);
        let v = items(nest, doc, segments, findings, stops, s, l, d, below);
        let closed = close(nest.job, doc, segments, s, l, v.instances, v.written);
        written += v.written + closed;
        n += 1;
        cur = behind(cur, next);
    }
    Visited {
        written,
        instances: n,
    }
}

// The items of a loop's order in an instance.
#[cycle(items_visits)]
fn items(
    nest: Nest,
    doc: &mut [u8],
    segments: &mut [u64],
    findings: &mut [u64],
    stops: &mut [u64],
    s: &mut State,
    l: LoopId,
    c: Context,
    height: u32,
) -> Visited
    requires { Walks (outline_by nest.job) s.old l.0 c × (T.segments_in (each (T.item_steps (T.visits (outline_by nest.job) height) (outline_by nest.job) l.0 (context_by c)) (order_of (outline_by nest.job) l.0)) < cap) }
    ensures { Went (job_by nest.entry.job) (each (T.item_steps (T.visits (outline_by nest.entry.job) height) (outline_by nest.entry.job) l.0 (context_by c)) (order_of (outline_by nest.entry.job) l.0))
        (T.children (I.instances (outline_by nest.entry.job) height) (outline_by nest.entry.job) l.0 (context_by c)) s.old s.new result
        doc.old doc.new segments.old segments.new findings.old findings.new stops.old stops.new }
{
    let order = plan::layout::order(nest.job.at, l);
    let mut written: usize = 0;
    let mut n: usize = 0;
    for k in 0..order.count {
        let it = plan::layout::order_item(nest.job.at.bytes, order, k);
        match it {
            Item::Segment(i) => {
                written += write_planned(nest, doc, segments, findings, stops, s, l, i, c);
            }
            Item::Loop(m) => {
                let v = visits(nest, doc, segments, findings, stops, s, m, c, height);
                written += v.written;
                n += v.instances;
            }
        }
    }
    Visited {
        written,
        instances: n,
    }
}

// Every instance of the spec's top-level loops.
pub fn run(
    nest: Nest,
    doc: &mut [u8],
    segments: &mut [u64],
    findings: &mut [u64],
    stops: &mut [u64],
    s: State,
) -> State
    requires { Small s × (T.segments_in (T.tour (outline_by nest.job)) < cap) }
    ensures { Did (steps_out (job_by nest.entry.job) (T.tour (outline_by nest.entry.job)) (state_of s)) s result
        doc.old doc.new segments.old segments.new findings.old findings.new stops.old stops.new }
{
    let height = spec::loops::loop_count(nest.job.at);
    let count = spec::loops::root_count(nest.job.at);
    let c = walk::outside();
    let mut t = s;
    for k in 0..count {
        let l = spec::loops::root(nest.job.at, k);
        visits(nest, doc, segments, findings, stops, &mut t, l, c, height);
    }
    t
}
