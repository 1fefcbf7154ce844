// The separators of a job, and the numbers that stand for identifiers and components.
ghost use Rattle.std.specs.Prelude.{◌≡◌, ◌+◌, ◌≤◌, length};
ghost use Rattle.format.specs.Sections.{job_of};
ghost use Rattle.format.specs.Refusal.{separators};
ghost use Rattle.segment.specs.Parts.{or_one};
ghost use Rattle.spec.specs.Answers.{stretch_of};
ghost use Rattle.spec.specs.EnvelopeIndex.{EnvelopeIndexed};
ghost use Rattle.nest.specs.Finding.{number_from, or_zero};
ghost use Rattle.emit.specs.Fold.{separators_of};
ghost use Rattle.emit.specs.Written.{tried};

use crate::findings::Delimiters;
use segment::Separators;
use spec::ids::Stretch;
use spec::{Indexed, envelope};

// What a segment is joined with.
pub fn separators_of(job: Indexed) -> Separators
    requires { EnvelopeIndexed job.bytes.now job.index.now }
    ensures { result ≡ separators_of (job_of job.entry.bytes.now) }
{
    let element = envelope::element_separator(job);
    let component = envelope::component_separator(job);
    let segment = envelope::segment_terminator(job);
    let line_break = envelope::line_break(job);
    Separators {
        element,
        component,
        segment,
        line_break,
    }
}

// The separator of repetitions, if there is one.
pub fn repetition_of(job: Indexed) -> Option<u8>
    requires { EnvelopeIndexed job.bytes.now job.index.now }
    ensures { result ≡ (job_of job.entry.bytes.now).envelope.repetition }
{
    envelope::repetition(job).map(|b| b as u8)
}

// What a text is tried for.
pub fn delimiters_of(job: Indexed) -> Delimiters
    requires { EnvelopeIndexed job.bytes.now job.index.now }
    ensures { tried result ≡ separators (job_of job.entry.bytes.now).envelope }
{
    let element = envelope::element_separator(job);
    let component = envelope::component_separator(job);
    let segment = envelope::segment_terminator(job);
    let repetition = repetition_of(job);
    Delimiters {
        element,
        component,
        segment,
        repetition,
    }
}

// An identifier as the number that findings have for it. It is at most three bytes: written out, each step is seen to fit its number.
pub fn id_number(job: &[u8], id: Stretch) -> u64
    requires { (id.len ≤ 3) × (id.start + id.len ≤ length job.now) }
    ensures { result ≡ number_from 0 (stretch_of job.now id) }
{
    let start = id.start;
    let len = id.len;
    if len == 0 {
        return 0;
    }
    let x = job[start] as u64;
    if len == 1 {
        return x;
    }
    let y = job[start + 1] as u64;
    if len == 2 {
        return x * 256 + y;
    }
    let z = job[start + 2] as u64;
    (x * 256 + y) * 256 + z
}

// The component of a part, 1 for a plain one.
pub fn component_of(n: Option<u32>) -> u32
    ensures { result ≡ or_one n }
{
    n.unwrap_or(1)
}

// A component as findings have it: plus one, 0 for a plain part.
pub fn component_word(n: Option<u32>) -> u64
    ensures { result ≡ or_zero n }
{
    n.map_or(0, |c| c as u64 + 1)
}
