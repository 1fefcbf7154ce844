// What is asked of the plan.
ghost use Rattle.std.specs.Prelude.{◌≡◌, ◌<◌, length};
ghost use Rattle.format.specs.Sections.{job_of};
ghost use Rattle.format.specs.Ask.{plan_of, planned_of};
ghost use Rattle.plan.specs.Answers.{instances_of, source_of};
ghost use Rattle.plan.specs.Index.{PlanIndexed};
ghost use Rattle.plan.specs.Planned.{PlannedIs};

use crate::answers::{Instances, Planned, Source};
use crate::index::{PLAN, SEGMENTS, list_count};
use crate::read;
use spec::Indexed;
use spec::ids::LoopId;
use spec::region::item_place;

// Where the instances of a loop come from; Absent where the plan lacks the loop.
pub fn instances(job: Indexed, l: LoopId) -> Instances
    requires { PlanIndexed job.bytes.now job.index.now × (l.0 < 32) }
    ensures { instances_of result ≡ (plan_of (job_of job.entry.bytes.now) l.0).instances }
{
    match item_place(job, PLAN, l.0) {
        None => Instances::Absent,
        Some(p) => read::instances_at(job.bytes, p),
    }
}

// How many segments are planned for a loop.
pub fn planned_count(job: Indexed, l: LoopId) -> u32
    requires { PlanIndexed job.bytes.now job.index.now × (l.0 < 32) }
    ensures { result ≡ length (plan_of (job_of job.entry.bytes.now) l.0).segments }
{
    match item_place(job, PLAN, l.0) {
        None => 0,
        Some(_) => list_count(job, SEGMENTS + l.0 as usize * 33),
    }
}

// What fills planned segment i of a loop.
pub fn source(job: Indexed, l: LoopId, i: u32) -> Source
    requires { PlanIndexed job.bytes.now job.index.now × (l.0 < 32) }
    ensures { source_of result ≡ (planned_of (job_of job.entry.bytes.now) l.0 i).source }
{
    let n = planned_count(job, l);
    if n <= i {
        return Source::Envelope;
    }
    let p = codec::place(job.index, SEGMENTS + l.0 as usize * 33 + 1 + i as usize);
    read::source_at(job.bytes, p + 4)
}

// Which occurrence of its loop planned segment i is.
pub fn occurrence_of(job: Indexed, l: LoopId, i: u32) -> u32
    requires { PlanIndexed job.bytes.now job.index.now × (l.0 < 32) }
    ensures { result ≡ (planned_of (job_of job.entry.bytes.now) l.0 i).occurrence }
{
    segment(job, l, i).occurrence
}

// Planned segment i of a loop.
pub fn segment(job: Indexed, l: LoopId, i: u32) -> Planned
    requires { PlanIndexed job.bytes.now job.index.now × (l.0 < 32) }
    ensures { PlannedIs job.entry.bytes.now l.0 i result }
{
    let n = planned_count(job, l);
    if n <= i {
        return read::unplanned();
    }
    let p = codec::place(job.index, SEGMENTS + l.0 as usize * 33 + 1 + i as usize);
    read::segment_at(job.bytes, p)
}
