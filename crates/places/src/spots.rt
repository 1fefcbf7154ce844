// The places of planned segments. Each function that reads tells whether whatever stands at a place is wrong.
ghost use Rattle.std.specs.Prelude.{◌≡◌, ◌≤◌, ℕ, Option};
ghost use Rattle.codec.specs.Codec.{list_c};
ghost use Rattle.codec.specs.Forms.{num_c, opt_c};
ghost use Rattle.codec.specs.Limits.{any_of};
ghost use Rattle.format.specs.Plan.{ElementPlan, element_plan_c, from_repeat, loop_plan_c, segment_plan_c, source_c, value_c};
ghost use Rattle.nest.specs.Job.{job_by};
ghost use Rattle.says.specs.Says.{Says, SaysBefore};
ghost use Rattle.places.specs.Spots.{wrong_spot, clash, fails, filled_of, front, hits, kind_by, meet, misplaced, mixed, reach_of, room_by, spot_of, step_by, wrong_plan, wrong_segment, wrong_spots};

use crate::job_section::JobSection;
use codec::{Form, Section};
use format::{Instances, LoopPlan, SegmentPlan, Source};
use nest::Job;
use spec::ids::TableId;

// The place of a planned element; reach is how many rows fill it.
#[derive(Clone, Copy)]
pub struct Spot {
    pub element: usize,
    pub component: Option<usize>,
    pub reach: usize,
}

// What fills a segment: an envelope, a row, or a chunk of repeat rows, which has room for so many.
#[derive(Clone, Copy)]
pub enum Filled {
    Envelope,
    Row,
    Repeat { step: usize, room: usize },
}

impl Filled {
    // From one row's place to the next.
    fn step(self) -> usize
        ensures { result ≡ step_by self }
    {
        match self {
            Filled::Repeat { step, .. } => step,
            _ => 0,
        }
    }

    fn room(self) -> usize
        ensures { result ≡ room_by self }
    {
        match self {
            Filled::Repeat { room, .. } => room,
            _ => 1,
        }
    }
}

// ---- two places

// Whether y is the place of one of r rows whose places start at x and lie `step` apart; x is not behind y.
fn hit(step: usize, r: usize, x: usize, y: usize) -> bool
    requires { x ≤ y }
    ensures { result ≡ hits step r x y }
{
    if step == 0 {
        return x == y;
    }
    (y - x) % step == 0 && (y - x) / step < r
}

fn meets(step: usize, x: Spot, y: Spot) -> bool
    ensures { result ≡ meet step x y }
{
    if x.element <= y.element {
        hit(step, x.reach, x.element, y.element)
    } else {
        hit(step, y.reach, y.element, x.element)
    }
}

fn is_mixed(x: Spot, y: Spot) -> bool
    ensures { result ≡ mixed x y }
{
    x.component.is_some() != y.component.is_some()
}

fn in_front(x: Spot, y: Spot) -> bool
    ensures { result ≡ front x y }
{
    (x.element, x.component) < (y.element, y.component)
}

fn is_misplaced(filled: Filled, m: bool, x: Spot, y: Spot) -> bool
    ensures { result ≡ misplaced (kind_by filled) m x y }
{
    match filled {
        Filled::Envelope => false,
        Filled::Row => !in_front(x, y),
        Filled::Repeat { .. } => m && x.component == y.component,
    }
}

fn clashes(filled: Filled, x: Spot, y: Spot) -> bool
    ensures { result ≡ clash (kind_by filled) (step_by filled) x y }
{
    let m = meets(filled.step(), x, y);
    is_misplaced(filled, m, x, y) || (m && is_mixed(x, y))
}

// ---- one place

fn spot_wrong(filled: Filled, x: Spot) -> bool
    ensures { result ≡ wrong_spot (step_by filled) x }
{
    let below = x.component == Some(0);
    x.element < 1 || below || (filled.step() == 0 && 1 < x.reach)
}

// ---- what stands in the plan

fn component_at(s: Section, at: usize) -> Option<usize>
    ensures { Says (opt_c num_c) s.entry.bytes.now s.entry.end at (λ (o : Option ℕ). o) result }
{
    if s.case(at) == Some(1) {
        let p = s.le_at(1, at);
        return Some(s.count_at(p));
    }
    None
}

fn reach_at(s: Section, at: usize, filled: Filled) -> usize
    ensures { Says value_c s.entry.bytes.now s.entry.end at (reach_of (room_by filled)) result }
{
    if s.case(at) == Some(1) {
        return filled.room();
    }
    1
}

fn spot_at(s: Section, at: usize, filled: Filled) -> Spot
    ensures { Says element_plan_c s.entry.bytes.now s.entry.end at (spot_of (room_by filled)) result }
{
    let component = s.le_at(4, at);
    let value = s.opt_num_at(component);
    Spot {
        element: s.count_at(at),
        component: component_at(s, component),
        reach: reach_at(s, value, filled),
    }
}

fn clashes_at(s: Section, at: usize, filled: Filled, x: Spot) -> bool
    ensures { Says element_plan_c s.entry.bytes.now s.entry.end at (λ (e : ElementPlan). clash (kind_by filled) (step_by filled) x (spot_of (room_by filled) e)) result }
{
    clashes(filled, x, spot_at(s, at, filled))
}

// Whether a place is wrong by itself or with one of the rest behind it, from next on.
fn spot_fails(s: Section, at: usize, rest: usize, next: usize, filled: Filled) -> bool
    ensures { SaysBefore element_plan_c s.entry.bytes.now s.entry.end at rest next (fails (kind_by filled) (step_by filled) (room_by filled)) result }
{
    let x = spot_at(s, at, filled);
    spot_wrong(filled, x)
        || says::lists::any_rest::<format::ElementPlan, _>(
            s,
            next,
            rest,
            |p| clashes_at(s, p, filled, x),
        )
}

fn spots_wrong(s: Section, at: usize, filled: Filled) -> bool
    ensures { Says (list_c element_plan_c) s.entry.bytes.now s.entry.end at (wrong_spots (kind_by filled) (step_by filled) (room_by filled)) result }
{
    says::lists::any_before::<format::ElementPlan, _>(
        s,
        at,
        |p, rest, next| spot_fails(s, p, rest, next, filled),
    )
}

// ---- what fills a segment

// A repeat segment of table t.
fn repeat_of(job: Job, t: TableId) -> Filled
    ensures { result ≡ filled_of (job_by job.entry) (from_repeat t.0) }
{
    Filled::Repeat {
        step: spec::tables::step(job.at, t) as usize,
        room: plan::layout::capacity(job.at, t).max(1) as usize,
    }
}

fn filled_at(part: JobSection, at: usize) -> Filled
    ensures { Says source_c part.entry.section.bytes.now part.entry.section.end at (filled_of (job_by part.entry.job)) result }
{
    let s = part.section;
    match s.case(at) {
        Some(2) => {
            let p = s.le_at(1, at);
            let table = s.count_at(p) as u32;
            repeat_of(part.job, TableId(table))
        }
        Some(1) => Filled::Row,
        _ => Filled::Envelope,
    }
}

fn segment_wrong(part: JobSection, at: usize) -> bool
    ensures { Says segment_plan_c part.entry.section.bytes.now part.entry.section.end at (wrong_segment (job_by part.entry.job)) result }
{
    let source = part.section.le_at(4, at);
    let elements = Source::ends_at(part.section, source);
    spots_wrong(part.section, elements, filled_at(part, source))
}

fn segments_wrong(part: JobSection, at: usize) -> bool
    ensures { Says (list_c segment_plan_c) part.entry.section.bytes.now part.entry.section.end at (any_of (wrong_segment (job_by part.entry.job))) result }
{
    says::lists::any_at::<SegmentPlan, _>(part.section, at, |p| segment_wrong(part, p))
}

fn plan_wrong(part: JobSection, at: usize) -> bool
    ensures { Says loop_plan_c part.entry.section.bytes.now part.entry.section.end at (wrong_plan (job_by part.entry.job)) result }
{
    let segments = Instances::ends_at(part.section, at);
    segments_wrong(part, segments)
}

pub fn plans_wrong(part: JobSection, at: usize) -> bool
    ensures { Says (list_c loop_plan_c) part.entry.section.bytes.now part.entry.section.end at (any_of (wrong_plan (job_by part.entry.job))) result }
{
    says::lists::any_at::<LoopPlan, _>(part.section, at, |p| plan_wrong(part, p))
}
