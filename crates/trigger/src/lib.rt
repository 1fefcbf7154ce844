// The trigger and the closer of an envelope loop.
#![tactic(auto)]

ghost use Rattle.std.specs.Prelude.{◌≡◌, List, [], ℕ, ◌<◌, Some};
ghost use Rattle.format.specs.Spec.{Control};
ghost use Rattle.format.specs.Ask.{loop_of};
ghost use Rattle.spec.specs.Answers.{counted_of, rule_of};
ghost use Rattle.segment.specs.Parts.{pick};
ghost use Rattle.segment.specs.Values.{value_text};
ghost use Rattle.emit.specs.Envelope.{control_in};
ghost use Rattle.emit.specs.Fold.{next, previous, count_of, opener_out, closer_out};
ghost use Rattle.emit.specs.Did.{DidNumber, Within};
ghost use Rattle.nest.specs.Job.{job_by};

use crate::frame::Frame;
use crate::number::control_in;
use crate::opener::put_opener;
use emit::closer::Closer;
use emit::state::{Counts, From};
use emit::{closer, signs, state};
use nest::Job;
use segment::Value;
use spec::ids::{ControlRule, LoopId, Stretch};

pub mod frame;
pub mod given;
pub mod number;
pub mod opener;

// ---- the opener

// Writes the trigger of loop l; its control number stands at the element that the rule names.
fn open_loop(
    job: Job,
    doc: &mut [u8],
    segments: &mut [u64],
    findings: &mut [u64],
    s: Counts,
    number: u64,
    l: LoopId,
    rule: ControlRule,
) -> Counts
    requires { Within s × (l.0 < 32) × ((loop_of (job_by job) l.0).control ≡ Some (rule_of rule)) }
    ensures { (p : List ℕ) → DidNumber l.0 (opener_out (job_by job.entry) l.0) number (next number) s result doc.old doc.new segments.old segments.new findings.old findings.new p p }
{
    let sep = signs::separators_of(job.at);
    let delimiters = signs::delimiters_of(job.at);
    let id = spec::loops::trigger(job.at, l);
    let name = signs::id_number(job.at.bytes, id);
    let depth = plan::layout::depth(job.at, l);
    let w = Frame {
        job,
        l,
        rule,
        number,
        sep,
        delimiters,
        id,
        name,
        depth,
    };
    let put = put_opener(doc, findings, &w, s.bytes, s.findings);
    state::finish_segment(
        segments,
        s,
        From::Envelope,
        put.entries,
        put.bytes,
        put.findings,
    )
}

// The counts, and the loop's next control number.
#[derive(Clone, Copy)]
pub struct Numbered {
    pub counts: Counts,
    pub number: u64,
}

// The trigger of loop l, with the loop's next control number.
pub fn write_opener(
    job: Job,
    doc: &mut [u8],
    segments: &mut [u64],
    findings: &mut [u64],
    s: Counts,
    number: u64,
    l: LoopId,
) -> Numbered
    requires { Within s × (l.0 < 32) }
    ensures { (p : List ℕ) → DidNumber l.0 (opener_out (job_by job.entry) l.0) number result.number s result.counts doc.old doc.new segments.old segments.new findings.old findings.new p p }
{
    let Some(c) = spec::loops::control(job.at, l) else {
        return Numbered { counts: s, number };
    };
    let counts = open_loop(job, doc, segments, findings, s, number, l, c);
    let after = state::next_number(number);
    Numbered {
        counts,
        number: after,
    }
}

// ---- the closer

// What a closer counts: child loops, or segments.
fn counted(kids: bool, children: usize, count: usize) -> u64
    ensures { result ≡ count_of (counted_of kids) children count }
{
    if kids {
        return children as u64;
    }
    count as u64
}

// The control number that a closer repeats, where `number` is the loop's next; empty where no opener was written.
fn repeated(job: Job, number: u64, l: LoopId, opener: u32, opened: bool) -> Value
    requires { l.0 < 32 }
    ensures { (k : Control) → k.opener ≡ opener → value_text job.entry.at.bytes.now result ≡ pick opened (control_in (job_by job.entry) l.0 k (previous number)) [] }
{
    if opened {
        let last = state::last_number(number);
        return control_in(job, l, opener, last);
    }
    segment::held(0, 0)
}

fn close_loop(
    job: Job,
    doc: &mut [u8],
    segments: &mut [u64],
    s: Counts,
    number: u64,
    l: LoopId,
    c: ControlRule,
    opened: bool,
    children: usize,
    count: usize,
) -> Counts
    requires { Within s × (l.0 < 32) × ((loop_of (job_by job) l.0).control ≡ Some (rule_of c)) }
    ensures { (f p : List ℕ) → DidNumber l.0 (closer_out (job_by job.entry) l.0 opened children count) number number s result doc.old doc.new segments.old segments.new f f p p }
{
    let Some(id) = spec::loops::loop_end(job.at, l) else {
        return s;
    };
    let control = repeated(job, number, l, c.opener, opened);
    let n = counted(c.children, children, count);
    let sep = signs::separators_of(job.at);
    let closer = Closer {
        sep,
        id,
        closer: c.closer as usize,
        control,
        count: c.count as usize,
        counted: n,
    };
    closer::write_closer(doc, segments, job.at.bytes, s, closer)
}

// The closer of loop l: its count, and the control number of its instance.
pub fn write_close(
    job: Job,
    doc: &mut [u8],
    segments: &mut [u64],
    s: Counts,
    number: u64,
    l: LoopId,
    opened: bool,
    children: usize,
    count: usize,
) -> Counts
    requires { Within s × (l.0 < 32) }
    ensures { (f p : List ℕ) → DidNumber l.0 (closer_out (job_by job.entry) l.0 opened children count) number number s result doc.old doc.new segments.old segments.new f f p p }
{
    match spec::loops::control(job.at, l) {
        None => s,
        Some(c) => close_loop(job, doc, segments, s, number, l, c, opened, children, count),
    }
}
