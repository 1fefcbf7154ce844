// A planned segment of an instance, written in the state as it stands.
ghost use Rattle.std.specs.Prelude.{[], ◌∷◌, List, ℕ, ◌<◌};
ghost use Rattle.lent.specs.Fit.{cap};
ghost use Rattle.walk.specs.Contexts.{context_by};
ghost use Rattle.walk.specs.Tour.{opener, segments_in, segment_steps, repeat_steps};
ghost use Rattle.emit.specs.Did.{Small, Took};
ghost use Rattle.run.specs.Went.{Walks};
ghost use Rattle.nest.specs.Job.{outline_by, job_by};

use crate::segments::{Due, segment_due};
use emit::state::State;
use nest::Job;
use repeats::write_repeats;
use row_segment::write_row;
use spec::ids::{LoopId, RowId, TableId};
use trigger::write_opener;
use walk::{Context, Nest};

// The trigger of loop l, which takes its next number.
fn write_trigger(
    job: Job,
    doc: &mut [u8],
    segments: &mut [u64],
    findings: &mut [u64],
    s: &mut State,
    l: LoopId,
)
    requires { Small s.old × (l.0 < 32) }
    ensures { (p : List ℕ) → Took (job_by job.entry) (opener l.0 ∷ []) s.old (record { state = s.new; written = 1 })
        doc.old doc.new segments.old segments.new findings.old findings.new p p }
{
    let k = l.0 as usize;
    let number = s.counter[k];
    let o = write_opener(job, doc, segments, findings, s.counts, number, l);
    s.counter[k] = o.number;
    s.counts = o.counts;
}

// The repeat segments of table t below row p; how many they are.
fn write_chunks(
    nest: Nest,
    doc: &mut [u8],
    segments: &mut [u64],
    findings: &mut [u64],
    stops: &mut [u64],
    s: &mut State,
    l: LoopId,
    i: u32,
    t: TableId,
    p: RowId,
) -> usize
    requires { Small s.old × (l.0 < 32) × (t.0 < 16) × (p.0 < 4096)
        × (segments_in (repeat_steps (outline_by nest.job) l.0 i t.0 p.0) < cap) }
    ensures { Took (job_by nest.entry.job) (repeat_steps (outline_by nest.entry.job) l.0 i t.0 p.0) s.old (record { state = s.new; written = result })
        doc.old doc.new segments.old segments.new findings.old findings.new stops.old stops.new }
{
    let at = t.0 as usize;
    let m = s.high[at];
    let w = write_repeats(
        nest, doc, segments, findings, stops, m, s.counts, l, i, t, p,
    );
    s.high[at] = w.mark;
    s.counts = w.counts;
    w.written
}

// Planned segment i of loop l in context c; how many segments it came to.
pub fn write_planned(
    nest: Nest,
    doc: &mut [u8],
    segments: &mut [u64],
    findings: &mut [u64],
    stops: &mut [u64],
    s: &mut State,
    l: LoopId,
    i: u32,
    c: Context,
) -> usize
    requires { Walks (outline_by nest.job) s.old l.0 c × (segments_in (segment_steps (outline_by nest.job) l.0 (context_by c) i) < cap) }
    ensures { Took (job_by nest.entry.job) (segment_steps (outline_by nest.entry.job) l.0 (context_by c) i) s.old (record { state = s.new; written = result })
        doc.old doc.new segments.old segments.new findings.old findings.new stops.old stops.new }
{
    let planned = plan::planned::segment(nest.job.at, l, i);
    let due = segment_due(nest.job, l, i, planned, c);
    match due {
        None => 0,
        Some(Due::Opener) => {
            write_trigger(nest.job, doc, segments, findings, s, l);
            1
        }
        Some(Due::Row(t, r)) => {
            s.counts = write_row(
                nest.job, doc, segments, findings, s.counts, l, i, planned, t, r,
            );
            1
        }
        Some(Due::Repeat(t, p)) => write_chunks(
            nest, doc, segments, findings, stops, s, l, i, t, p,
        ),
    }
}
