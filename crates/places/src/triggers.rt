// Envelope fields that give a separator. Each function that reads tells whether whatever stands at a place is wrong.
ghost use Rattle.std.specs.Prelude.{◌≡◌, List, ◌≤◌, ◌<◌};
ghost use Rattle.codec.specs.Codec.{◌⊗◌, list_c};
ghost use Rattle.codec.specs.Forms.{num_c};
ghost use Rattle.codec.specs.Skip.{Is, count_at};
ghost use Rattle.codec.specs.Limits.{any_of};
ghost use Rattle.format.specs.Words.{any_from, if_some};
ghost use Rattle.format.specs.Spec.{element_c, SegmentDef};
ghost use Rattle.format.specs.Plan.{ElementPlan, element_plan_c, loop_plan_c, segment_plan_c};
ghost use Rattle.emit.specs.Envelope.{field_at};
ghost use Rattle.says.specs.Says.{Says};
ghost use Rattle.places.specs.Triggers.{crowded, field_gives, gives, part_of, trigger_of, wrong_element, wrong_loop_at, wrong_ruled, wrong_trigger};
ghost use Rattle.nest.specs.Job.{job_by};

use crate::job_section::JobSection;
use codec::forms::{Le, NumMap};
use codec::{Form, Section};
use format::{Component, Element, Instances, LoopPlan, SegmentPlan, Source};
use nest::Job;
use spec::ids::{ControlRule, LoopId};

// What an element of a trigger is judged by: the element of the control number, the depth, and whether there is a repetition separator.
#[derive(Clone, Copy)]
pub struct Trigger {
    pub opener: usize,
    pub depth: usize,
    pub repetition: bool,
}

// ---- elements that give a separator

fn field_gives(repeated: bool, plain: bool, f: u8) -> bool
    ensures { result ≡ field_gives repeated plain f }
{
    match f {
        11 => true,
        10 => plain && repeated,
        _ => false,
    }
}

fn position_gives(depth: usize, repeated: bool, plain: bool, position: u32) -> bool
    ensures { result ≡ if_some (field_gives repeated plain) (field_at depth position) }
{
    match emit::envelope::field_at(depth, position) {
        None => false,
        Some(f) => field_gives(repeated, plain, f),
    }
}

fn element_gives(s: Section, at: usize, t: Trigger) -> bool
    ensures { Says (num_c ⊗ element_c) s.entry.bytes.now s.entry.end at (gives t) result }
{
    let value = s.le_at(4, at);
    let max = format::sizes_end(s, value);
    let codes = NumMap::<Component>::ends_at(s, max);
    let n = s.count_at(at);
    let m = s.count_at(codes);
    n != t.opener && position_gives(t.depth, t.repetition, m == 0, n as u32)
}

// ---- elements with components

fn part_at(s: Section, at: usize, n: usize) -> bool
    ensures { Says element_plan_c s.entry.bytes.now s.entry.end at (part_of n) result }
{
    let component = s.le_at(4, at);
    let e = s.count_at(at);
    e == n && s.case(component) == Some(1)
}

fn parts_at(s: Section, at: usize, n: usize) -> bool
    ensures { Says (list_c element_plan_c) s.entry.bytes.now s.entry.end at (any_of (part_of n)) result }
{
    says::lists::any_at::<format::ElementPlan, _>(s, at, |p| part_at(s, p, n))
}

// The planned elements stand at own.
fn crowded_at(s: Section, at: usize, own: usize, plan: Section) -> bool
    ensures { (es : List ElementPlan) → Is (list_c element_plan_c) plan.entry.bytes.now plan.entry.end own es → Says (num_c ⊗ element_c) s.entry.bytes.now s.entry.end at (crowded es) result }
{
    let value = s.le_at(4, at);
    let max = format::sizes_end(s, value);
    let m = s.count_at(max);
    let n = s.count_at(at);
    m != 0 || parts_at(plan, own, n)
}

fn element_wrong(s: Section, at: usize, t: Trigger, own: usize, plan: Section) -> bool
    ensures { (es : List ElementPlan) → Is (list_c element_plan_c) plan.entry.bytes.now plan.entry.end own es → Says (num_c ⊗ element_c) s.entry.bytes.now s.entry.end at (wrong_element t es) result }
{
    element_gives(s, at, t) && crowded_at(s, at, own, plan)
}

fn elements_wrong(s: Section, at: usize, t: Trigger, own: usize, plan: Section) -> bool
    ensures { (es : List ElementPlan) → Is (list_c element_plan_c) plan.entry.bytes.now plan.entry.end own es → Says (list_c (num_c ⊗ element_c)) s.entry.bytes.now s.entry.end at (any_of (wrong_element t es)) result }
{
    says::lists::any_at::<(Le<4>, Element), _>(s, at, |p| element_wrong(s, p, t, own, plan))
}

// ---- planned segments: the definitions of the trigger's elements stand at defs

fn trigger_wrong(s: Section, at: usize, t: Trigger, defs: usize, spec: Section) -> bool
    ensures { (xs : SegmentDef) → Is (list_c (num_c ⊗ element_c)) spec.entry.bytes.now spec.entry.end defs xs → Says segment_plan_c s.entry.bytes.now s.entry.end at (wrong_trigger t xs) result }
{
    let source = s.le_at(4, at);
    let elements = Source::ends_at(s, source);
    s.case(source) == Some(0) && elements_wrong(spec, defs, t, elements, s)
}

fn triggers_wrong(s: Section, at: usize, t: Trigger, defs: usize, spec: Section) -> bool
    ensures { (xs : SegmentDef) → Is (list_c (num_c ⊗ element_c)) spec.entry.bytes.now spec.entry.end defs xs → Says (list_c segment_plan_c) s.entry.bytes.now s.entry.end at (any_of (wrong_trigger t xs)) result }
{
    says::lists::any_at::<SegmentPlan, _>(s, at, |p| trigger_wrong(s, p, t, defs, spec))
}

// ---- loops

fn trigger_of(job: Job, l: LoopId, opener: usize) -> Trigger
    requires { l.0 < 32 }
    ensures { result ≡ trigger_of (job_by job.entry) l.0 opener }
{
    Trigger {
        opener,
        depth: plan::layout::depth(job.at, l) as usize,
        repetition: spec::envelope::repetition(job.at).is_some(),
    }
}

fn ruled_wrong(part: JobSection, at: usize, l: LoopId, opener: usize) -> bool
    requires { l.0 < 32 }
    ensures { Says loop_plan_c part.entry.section.bytes.now part.entry.section.end at (wrong_ruled (job_by part.entry.job) l.0 opener) result }
{
    let job = part.job.at;
    let t = trigger_of(part.job, l, opener);
    let spec = spec::read::spec_of(job.bytes);
    let segments = Instances::ends_at(part.section, at);
    let name = spec::loops::trigger(job, l);
    match spec::segments::elements_of(job, name) {
        None => false,
        Some(q) => triggers_wrong(part.section, segments, t, q, spec),
    }
}

fn loop_wrong(part: JobSection, at: usize, l: LoopId) -> bool
    requires { l.0 < 32 }
    ensures { Says loop_plan_c part.entry.section.bytes.now part.entry.section.end at (wrong_loop_at (job_by part.entry.job) l.0) result }
{
    match spec::loops::control(part.job.at, l) {
        None => false,
        Some(rule) => ruled_wrong(part, at, l, rule.opener as usize),
    }
}

pub fn loops_wrong(part: JobSection, at: usize) -> bool
    requires { count_at part.section.bytes.now at part.section.end ≤ 32 }
    ensures { Says (list_c loop_plan_c) part.entry.section.bytes.now part.entry.section.end at (any_from (wrong_loop_at (job_by part.entry.job)) 0) result }
{
    says::lists::any_numbered::<LoopPlan, _>(
        part.section,
        at,
        |k, p| loop_wrong(part, p, LoopId(k as u32)),
    )
}
