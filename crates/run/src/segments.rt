// What a planned segment gives in an instance.
ghost use Rattle.std.specs.Prelude.{◌≡◌, cond, ◌&&◌, [], ◌∷◌, ℕ, ◌<◌};
ghost use Rattle.nest.specs.Outline.{of_row, of_repeat, loop_of, has_occurrence};
ghost use Rattle.plan.specs.Planned.{PlannedIs};
ghost use Rattle.walk.specs.Contexts.{context_by};
ghost use Rattle.walk.specs.Nested.{Sound};
ghost use Rattle.walk.specs.Tour.{opener, row_segment, due_row, from_source, segment_steps};
ghost use Rattle.run.specs.Went.{Gives};
ghost use Rattle.nest.specs.Job.{outline_by};

use crate::own::own_row;
use nest::Job;
use plan::answers::{Planned, Source};
use spec::ids::{ControlRule, LoopId, RowId, TableId};
use walk::{Context, row_of};

// The trigger of the loop, the segment of a table's row, or the repeat segments of a table below a row.
#[derive(Clone, Copy)]
pub enum Due {
    Opener,
    Row(TableId, RowId),
    Repeat(TableId, RowId),
}

// Whether a loop has `control`.
pub fn controlled(job: Job, l: LoopId) -> bool
    ensures { result ≡ (loop_of (outline_by job.entry) l.0).controlled }
{
    spec::loops::control(job.at, l).is_some()
}

// The trigger of a loop with `control`.
fn opener_due(job: Job, l: LoopId) -> Option<Due>
    ensures { (i : ℕ) → Gives (outline_by job.entry) l.0 i (cond (loop_of (outline_by job.entry) l.0).controlled (opener l.0 ∷ []) []) result }
{
    if controlled(job, l) {
        Some(Due::Opener)
    } else {
        None
    }
}

// The segment of a row.
fn due_at(job: Job, l: LoopId, i: u32, s: Planned, t: TableId, r: RowId) -> Option<Due>
    requires { (l.0 < 32) × PlannedIs job.at.bytes.now l.0 i s }
    ensures { Gives (outline_by job.entry) l.0 i (cond (has_occurrence (outline_by job.entry) l.0 i && due_row (outline_by job.entry) l.0 i t.0 r.0) (row_segment l.0 i t.0 r.0 ∷ []) []) result }
{
    if due::has_occurrence(job, l, i, s) && due::due_row(job, l, i, s, t, r) {
        Some(Due::Row(t, r))
    } else {
        None
    }
}

// A segment of a table's row, in an instance that sits in one.
fn row_due(job: Job, l: LoopId, i: u32, s: Planned, t: TableId, c: Context) -> Option<Due>
    requires { (l.0 < 32) × PlannedIs job.at.bytes.now l.0 i s }
    ensures { Gives (outline_by job.entry) l.0 i (from_source (outline_by job.entry) l.0 i (context_by c) (of_row t.0)) result }
{
    let r = row_of(c, t)?;
    due_at(job, l, i, s, t, r)
}

// The repeat segments of an instance that a row opened.
fn repeat_due(job: Job, l: LoopId, i: u32, s: Planned, t: TableId, c: Context) -> Option<Due>
    requires { Sound (outline_by job) (context_by c) × (l.0 < 32) × PlannedIs job.at.bytes.now l.0 i s }
    ensures { Gives (outline_by job.entry) l.0 i (from_source (outline_by job.entry) l.0 i (context_by c) (of_repeat t.0)) result }
{
    if 16 <= t.0 {
        return None;
    }
    if !due::has_occurrence(job, l, i, s) {
        return None;
    }
    let own = own_row(job, l, c)?;
    Some(Due::Repeat(t, own.row))
}

// What planned segment i of loop l, which is s, gives by its source.
pub fn segment_due(job: Job, l: LoopId, i: u32, s: Planned, c: Context) -> Option<Due>
    requires { Sound (outline_by job) (context_by c) × (l.0 < 32) × PlannedIs job.at.bytes.now l.0 i s }
    ensures { Gives (outline_by job.entry) l.0 i (segment_steps (outline_by job.entry) l.0 (context_by c) i) result }
{
    if !s.there {
        return None;
    }
    match s.source {
        Source::Envelope => opener_due(job, l),
        Source::Row(t) => row_due(job, l, i, s, t, c),
        Source::Repeat(t) => repeat_due(job, l, i, s, t, c),
    }
}
