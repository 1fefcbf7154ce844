// A planned segment.
ghost use Rattle.std.specs.Prelude.{◌≡◌, ◌<◌};
ghost use Rattle.repeat_segment.specs.Planned.{Of};

use nest::Job;
use plan::planned;
use spec::ids::{LoopId, Stretch, TableId};
use spec::loops;

// A planned segment: its loop and its number there, its table and that table's step, its identifier, where its elements stand and how many.
// That it is the job's (`Of`) is asked by what uses it.
#[derive(Clone, Copy)]
pub struct Planned {
    pub l: LoopId,
    pub i: u32,
    pub table: TableId,
    pub step: u32,
    pub id: Stretch,
    pub first: usize,
    pub count: u32,
}

pub fn planned_segment(job: Job, l: LoopId, i: u32, t: TableId) -> Planned
    requires { l.0 < 32 }
    ensures { Of job.entry.at.bytes.now result × (result.l ≡ l) × (result.i ≡ i) × (result.table ≡ t) }
{
    let s = planned::segment(job.at, l, i);
    let id = loops::occurrence(job.at, l, s.occurrence);
    let step = spec::tables::step(job.at, t);
    Planned {
        l,
        i,
        table: t,
        step,
        id,
        first: s.first,
        count: s.count,
    }
}
