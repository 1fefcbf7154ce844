// The closer of an instance.
ghost use Rattle.std.specs.Prelude.{◌≡◌, ◌&&◌, List, ℕ, ◌<◌};
ghost use Rattle.lent.specs.Fit.{cap};
ghost use Rattle.nest.specs.Outline.{loop_of};
ghost use Rattle.walk.specs.Tour.{Step, segments_in, close_steps};
ghost use Rattle.emit.specs.Did.{Small, Took};
ghost use Rattle.nest.specs.Job.{outline_by, job_by};

use crate::segments;
use emit::state::State;
use nest::Job;
use spec::ids::{LoopId, Stretch};

// Whether a loop has `end`.
fn ends(job: Job, l: LoopId) -> bool
    ensures { result ≡ (loop_of (outline_by job.entry) l.0).ends }
{
    spec::loops::loop_end(job.at, l).is_some()
}

// Whether a loop has `end` and `control`.
fn closes(job: Job, l: LoopId) -> bool
    ensures { result ≡ ((loop_of (outline_by job.entry) l.0).ends && (loop_of (outline_by job.entry) l.0).controlled) }
{
    ends(job, l) && segments::controlled(job, l)
}

// The closer of an instance with so many child instances, behind so many segments of its own: it counts itself. How many segments it is.
pub fn close(
    job: Job,
    doc: &mut [u8],
    segments: &mut [u64],
    s: &mut State,
    l: LoopId,
    children: usize,
    count: usize,
) -> usize
    requires { Small s.old × (l.0 < 32) × (count < cap) }
    ensures { (body : List Step) (f p : List ℕ) → count ≡ segments_in body
        → Took (job_by job.entry) (close_steps (outline_by job.entry) l.0 children body) s.old (record { state = s.new; written = result })
        doc.old doc.new segments.old segments.new f f p p }
{
    if closes(job, l) {
        let opened = due::opened(job, l);
        let number = s.counter[l.0 as usize];
        s.counts = trigger::write_close(
            job,
            doc,
            segments,
            s.counts,
            number,
            l,
            opened,
            children,
            count + 1,
        );
        return 1;
    }
    0
}
