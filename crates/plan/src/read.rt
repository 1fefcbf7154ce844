// What stands at a place, read there: each answer is that of the structure that stands there.
ghost use Rattle.std.specs.Prelude.{◌≡◌, ℕ, ◌+◌, ◌≤◌, ◌<◌, length};
ghost use Rattle.codec.specs.Codec.{le};
ghost use Rattle.codec.specs.Skip.{Is};
ghost use Rattle.codec.specs.Field.{Stands};
ghost use Rattle.format.specs.Plan.{Instances as InstancesIn, instances_c, Source as SourceIn, source_c, Value as ValueIn, value_c, ElementPlan as ElementPlanIn, element_plan_c, SegmentPlan as SegmentPlanIn, segment_plan_c};
ghost use Rattle.format.specs.Layout.{Item as ItemIn, item_c};
ghost use Rattle.plan.specs.Answers.{instances_of, source_of, source_len, item_of, ElementRead, ValueRead};
ghost use Rattle.plan.specs.Planned.{unplanned, SegmentRead};

use crate::answers::{ElementPlan, Instances, Item, Planned, Source, ValueSource};
use spec::ids::{LoopId, Stretch, TableId};

// The table whose number stands at a place.
fn table_at(job: &[u8], at: usize) -> TableId
    requires { at + 4 ≤ length job.now }
    ensures { result.0 ≡ le 4 job.now at }
{
    TableId(codec::num_in(job, at) as u32)
}

// The instances that stand at a place.
pub fn instances_at(job: &[u8], at: usize) -> Instances
    requires { Stands instances_c job.now at }
    ensures { (e : ℕ) (v : InstancesIn) → Is instances_c job.now e at v → instances_of result ≡ v }
{
    match job[at] {
        0 => Instances::Absent,
        1 => Instances::Envelope,
        2 => Instances::Rows(table_at(job, at + 1)),
        3 => Instances::Inside(table_at(job, at + 1)),
        4 => Instances::Groups(table_at(job, at + 1)),
        _ => Instances::Implied,
    }
}

// The source that stands at a place.
pub fn source_at(job: &[u8], at: usize) -> Source
    requires { Stands source_c job.now at }
    ensures { (e : ℕ) (v : SourceIn) → Is source_c job.now e at v → source_of result ≡ v }
{
    match job[at] {
        0 => Source::Envelope,
        1 => Source::Row(table_at(job, at + 1)),
        _ => Source::Repeat(table_at(job, at + 1)),
    }
}

// What stands for a planned segment that is not there.
pub fn unplanned() -> Planned
    ensures { result ≡ unplanned }
{
    Planned {
        there: false,
        source: Source::Envelope,
        occurrence: 0,
        count: 0,
        first: 0,
    }
}

// How many bytes a source has.
fn source_len(s: Source) -> usize
    ensures { result ≡ source_len (source_of s) }
{
    match s {
        Source::Envelope => 1,
        _ => 5,
    }
}

// The planned segment that stands at a place.
pub fn segment_at(job: &[u8], at: usize) -> Planned
    requires { Stands segment_plan_c job.now at }
    ensures { (e : ℕ) (v : SegmentPlanIn) → e ≤ length job.now → Is segment_plan_c job.now e at v → SegmentRead job.now e v result }
{
    let occurrence = codec::num_in(job, at) as u32;
    let source = source_at(job, at + 4);
    let list = at + 4 + source_len(source);
    Planned {
        there: true,
        source,
        occurrence,
        count: codec::num_in(job, list) as u32,
        first: list + 4,
    }
}

// The value that stands at a place, as that of an element and component.
pub fn value_at(job: &[u8], element: u32, component: Option<u32>, at: usize) -> ElementPlan
    requires { Stands value_c job.now at }
    ensures { (result.element ≡ element) × (result.component ≡ component) × ((e : ℕ) (v : ValueIn) → e ≤ length job.now → Is value_c job.now e at v → ValueRead job.now e at v result) }
{
    let n = codec::num_in(job, at + 1);
    match job[at] {
        0 => ElementPlan {
            element,
            component,
            value: ValueSource::Column(n as u32),
            next: at + 5,
        },
        1 => ElementPlan {
            element,
            component,
            value: ValueSource::Group(n as u32),
            next: at + 5,
        },
        _ => ElementPlan {
            element,
            component,
            value: ValueSource::Code(Stretch {
                start: at + 5,
                len: n,
            }),
            next: at + 5 + n,
        },
    }
}

// The planned element that stands at a place, and the place behind it. Callers go through the elements in loops of their own, since each keeps another
// state from element to element.
pub fn element_at(job: &[u8], at: usize) -> ElementPlan
    requires { Stands element_plan_c job.now at }
    ensures { (e : ℕ) (v : ElementPlanIn) → e ≤ length job.now → Is element_plan_c job.now e at v → ElementRead job.now e at v result }
{
    let element = codec::num_in(job, at) as u32;
    let mark = job[at + 4];
    if mark == 0 {
        return value_at(job, element, None, at + 5);
    }
    let component = codec::num_in(job, at + 5) as u32;
    value_at(job, element, Some(component), at + 9)
}

// The item that stands at a place.
pub fn item_at(job: &[u8], at: usize) -> Item
    requires { Stands item_c job.now at }
    ensures { (e : ℕ) (v : ItemIn) → Is item_c job.now e at v → item_of result ≡ v }
{
    let n = codec::num_in(job, at + 1) as u32;
    match job[at] {
        0 => Item::Segment(n),
        _ => Item::Loop(LoopId(n)),
    }
}
