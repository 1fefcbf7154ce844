// Separators in codes. Each function tells whether whatever stands at a place has one.
ghost use Rattle.codec.specs.Codec.{◌⊗◌, list_c};
ghost use Rattle.codec.specs.Forms.{byte_c, bytes_c, num_c, opt_c};
ghost use Rattle.codec.specs.Limits.{any_of};
ghost use Rattle.format.specs.Words.{if_some};
ghost use Rattle.format.specs.Spec.{component_c, element_c, segment_c, version_c};
ghost use Rattle.format.specs.Plan.{element_plan_c, loop_plan_c, segment_plan_c, value_c};
ghost use Rattle.says.specs.Says.{Says};
ghost use Rattle.codes.specs.Codes.{mark, marked, marked_component, marked_element, marked_element_plan, marked_loop_plan, marked_segment, marked_segment_plan, marked_value, marked_version};

use codec::forms::{Bytes, Le, NumMap};
use codec::{Form, Section};
use format::{Component, Element, ElementPlan, Instances, LoopPlan, SegmentPlan, Source, Version};

// The separators of elements, components and segments.
#[derive(Clone, Copy)]
pub struct Marks {
    pub element: usize,
    pub component: usize,
    pub segment: usize,
}

fn mark_at(s: Section, at: usize, m: Marks) -> bool
    ensures { Says byte_c s.entry.bytes.now s.entry.end at (mark m) result }
{
    let c = codec::byte_at(s.bytes, at);
    c == m.element || c == m.component || c == m.segment
}

fn text_marked(s: Section, at: usize, m: Marks) -> bool
    ensures { Says bytes_c s.entry.bytes.now s.entry.end at (marked m) result }
{
    says::lists::any_at::<Le<1>, _>(s, at, |p| mark_at(s, p, m))
}

fn texts_marked(s: Section, at: usize, m: Marks) -> bool
    ensures { Says (list_c bytes_c) s.entry.bytes.now s.entry.end at (any_of (marked m)) result }
{
    says::lists::any_at::<Bytes, _>(s, at, |p| text_marked(s, p, m))
}

// ---- the plan

fn value_marked(s: Section, at: usize, m: Marks) -> bool
    ensures { Says value_c s.entry.bytes.now s.entry.end at (marked_value m) result }
{
    s.case(at) == Some(2) && text_marked(s, s.le_at(1, at), m)
}

fn element_plan_marked(s: Section, at: usize, m: Marks) -> bool
    ensures { Says element_plan_c s.entry.bytes.now s.entry.end at (marked_element_plan m) result }
{
    let component = s.le_at(4, at);
    let value = s.opt_num_at(component);
    value_marked(s, value, m)
}

fn element_plans_marked(s: Section, at: usize, m: Marks) -> bool
    ensures { Says (list_c element_plan_c) s.entry.bytes.now s.entry.end at (any_of (marked_element_plan m)) result }
{
    says::lists::any_at::<ElementPlan, _>(s, at, |p| element_plan_marked(s, p, m))
}

fn segment_plan_marked(s: Section, at: usize, m: Marks) -> bool
    ensures { Says segment_plan_c s.entry.bytes.now s.entry.end at (marked_segment_plan m) result }
{
    let source = s.le_at(4, at);
    let elements = Source::ends_at(s, source);
    element_plans_marked(s, elements, m)
}

fn segment_plans_marked(s: Section, at: usize, m: Marks) -> bool
    ensures { Says (list_c segment_plan_c) s.entry.bytes.now s.entry.end at (any_of (marked_segment_plan m)) result }
{
    says::lists::any_at::<SegmentPlan, _>(s, at, |p| segment_plan_marked(s, p, m))
}

fn loop_plan_marked(s: Section, at: usize, m: Marks) -> bool
    ensures { Says loop_plan_c s.entry.bytes.now s.entry.end at (marked_loop_plan m) result }
{
    let segments = Instances::ends_at(s, at);
    segment_plans_marked(s, segments, m)
}

pub fn plan_marked(s: Section, at: usize, m: Marks) -> bool
    ensures { Says (list_c loop_plan_c) s.entry.bytes.now s.entry.end at (any_of (marked_loop_plan m)) result }
{
    says::lists::any_at::<LoopPlan, _>(s, at, |p| loop_plan_marked(s, p, m))
}

// ---- the spec

fn component_marked(s: Section, at: usize, m: Marks) -> bool
    ensures { Says (num_c ⊗ component_c) s.entry.bytes.now s.entry.end at (marked_component m) result }
{
    let value = s.le_at(4, at);
    let max = format::sizes_end(s, value);
    texts_marked(s, max, m)
}

fn components_marked(s: Section, at: usize, m: Marks) -> bool
    ensures { Says (list_c (num_c ⊗ component_c)) s.entry.bytes.now s.entry.end at (any_of (marked_component m)) result }
{
    says::lists::any_at::<(Le<4>, Component), _>(s, at, |p| component_marked(s, p, m))
}

fn element_marked(s: Section, at: usize, m: Marks) -> bool
    ensures { Says (num_c ⊗ element_c) s.entry.bytes.now s.entry.end at (marked_element m) result }
{
    let value = s.le_at(4, at);
    let max = format::sizes_end(s, value);
    let components = NumMap::<Component>::ends_at(s, max);
    texts_marked(s, components, m) || components_marked(s, max, m)
}

fn elements_marked(s: Section, at: usize, m: Marks) -> bool
    ensures { Says (list_c (num_c ⊗ element_c)) s.entry.bytes.now s.entry.end at (any_of (marked_element m)) result }
{
    says::lists::any_at::<(Le<4>, Element), _>(s, at, |p| element_marked(s, p, m))
}

fn segment_marked(s: Section, at: usize, m: Marks) -> bool
    ensures { Says (bytes_c ⊗ segment_c) s.entry.bytes.now s.entry.end at (marked_segment m) result }
{
    let value = s.bytes_at(at);
    elements_marked(s, value, m)
}

pub fn segments_marked(s: Section, at: usize, m: Marks) -> bool
    ensures { Says (list_c (bytes_c ⊗ segment_c)) s.entry.bytes.now s.entry.end at (any_of (marked_segment m)) result }
{
    says::lists::any_at::<(Bytes, NumMap<Element>), _>(s, at, |p| segment_marked(s, p, m))
}

fn version_marked(s: Section, at: usize, m: Marks) -> bool
    ensures { Says version_c s.entry.bytes.now s.entry.end at (marked_version m) result }
{
    let segment = s.bytes_at(at);
    let element = s.le_at(4, segment);
    text_marked(s, element, m)
}

pub fn opt_version_marked(s: Section, at: usize, m: Marks) -> bool
    ensures { Says (opt_c version_c) s.entry.bytes.now s.entry.end at (if_some (marked_version m)) result }
{
    says::lists::opt_at::<Version, _>(s, at, |p| version_marked(s, p, m))
}
