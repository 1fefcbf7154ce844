// The plan: what each loop and each of its segments is filled from.
ghost use Rattle.format.specs.Plan.{element_plan_c, instances_c, loop_plan_c, segment_plan_c, source_c, value_c, ElementPlan as AElementPlan, Instances as AInstances, LoopPlan as ALoopPlan, SegmentPlan as ASegmentPlan, Source as ASource, Value as AValue};

use codec::forms::Items;
use codec::{Form, Section};

pub struct Instances;

impl Form for Instances {
    ghost Value = { AInstances };

    ghost codec = { instances_c };

    fn ends_at(s: Section, at: usize) -> usize {
        match s.case(at) {
            Some(t) if t < 2 => at + 1,
            Some(t) if t < 5 => s.le_at(4, at + 1),
            Some(t) if t < 6 => at + 1,
            _ => s.past(),
        }
    }
}

pub struct Source;

impl Form for Source {
    ghost Value = { ASource };

    ghost codec = { source_c };

    fn ends_at(s: Section, at: usize) -> usize {
        match s.case(at) {
            Some(t) if t < 1 => at + 1,
            Some(t) if t < 3 => s.le_at(4, at + 1),
            _ => s.past(),
        }
    }
}

pub struct Filler;

impl Form for Filler {
    ghost Value = { AValue };

    ghost codec = { value_c };

    fn ends_at(s: Section, at: usize) -> usize {
        match s.case(at) {
            Some(t) if t < 2 => s.le_at(4, at + 1),
            Some(t) if t < 3 => s.bytes_at(at + 1),
            _ => s.past(),
        }
    }
}

pub struct ElementPlan;

impl Form for ElementPlan {
    ghost Value = { AElementPlan };

    ghost codec = { element_plan_c };

    fn ends_at(s: Section, at: usize) -> usize {
        let element = s.le_at(4, at);
        let component = s.opt_num_at(element);
        Filler::ends_at(s, component)
    }
}

pub struct SegmentPlan;

impl Form for SegmentPlan {
    ghost Value = { ASegmentPlan };

    ghost codec = { segment_plan_c };

    fn ends_at(s: Section, at: usize) -> usize {
        let occurrence = s.le_at(4, at);
        let source = Source::ends_at(s, occurrence);
        Items::<ElementPlan>::ends_at(s, source)
    }
}

pub struct LoopPlan;

impl Form for LoopPlan {
    ghost Value = { ALoopPlan };

    ghost codec = { loop_plan_c };

    fn ends_at(s: Section, at: usize) -> usize {
        let instances = Instances::ends_at(s, at);
        Items::<SegmentPlan>::ends_at(s, instances)
    }
}
