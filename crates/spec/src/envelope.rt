// The envelope of a job: a reader for each field, since each promises a field of its own, in the type of that field.
ghost use Rattle.std.specs.Prelude.{◌≡◌};
ghost use Rattle.format.specs.Sections.{job_of};
ghost use Rattle.spec.specs.Answers.{Holds, HoldsByte, HoldsText};
ghost use Rattle.spec.specs.EnvelopeIndex.{EnvelopeIndexed};

use crate::Indexed;
use crate::ids::Stretch;
use crate::read::{byte_number_at, flag_at, stretch_at, text_at};

pub fn sender_qualifier(job: Indexed) -> Stretch
    requires { EnvelopeIndexed job.bytes.now job.index.now }
    ensures { Holds job.entry.bytes.now result (job_of job.entry.bytes.now).envelope.sender_qualifier }
{
    let p = codec::place(job.index, 2560);
    stretch_at(job.bytes, p)
}

pub fn sender_id(job: Indexed) -> Stretch
    requires { EnvelopeIndexed job.bytes.now job.index.now }
    ensures { Holds job.entry.bytes.now result (job_of job.entry.bytes.now).envelope.sender_id }
{
    let p = codec::place(job.index, 2561);
    stretch_at(job.bytes, p)
}

pub fn receiver_qualifier(job: Indexed) -> Stretch
    requires { EnvelopeIndexed job.bytes.now job.index.now }
    ensures { Holds job.entry.bytes.now result (job_of job.entry.bytes.now).envelope.receiver_qualifier }
{
    let p = codec::place(job.index, 2562);
    stretch_at(job.bytes, p)
}

pub fn receiver_id(job: Indexed) -> Stretch
    requires { EnvelopeIndexed job.bytes.now job.index.now }
    ensures { Holds job.entry.bytes.now result (job_of job.entry.bytes.now).envelope.receiver_id }
{
    let p = codec::place(job.index, 2563);
    stretch_at(job.bytes, p)
}

pub fn application_sender(job: Indexed) -> Option<Stretch>
    requires { EnvelopeIndexed job.bytes.now job.index.now }
    ensures { HoldsText job.entry.bytes.now result (job_of job.entry.bytes.now).envelope.application_sender }
{
    let p = codec::place(job.index, 2564);
    text_at(job.bytes, p)
}

pub fn application_receiver(job: Indexed) -> Option<Stretch>
    requires { EnvelopeIndexed job.bytes.now job.index.now }
    ensures { HoldsText job.entry.bytes.now result (job_of job.entry.bytes.now).envelope.application_receiver }
{
    let p = codec::place(job.index, 2565);
    text_at(job.bytes, p)
}

// The 32 bits of the date, a signed number.
pub fn date(job: Indexed) -> u32
    requires { EnvelopeIndexed job.bytes.now job.index.now }
    ensures { result ≡ (job_of job.entry.bytes.now).envelope.date }
{
    let p = codec::place(job.index, 2566);
    codec::num_in(job.bytes, p) as u32
}

// The 32 bits of the time, a signed number.
pub fn time(job: Indexed) -> u32
    requires { EnvelopeIndexed job.bytes.now job.index.now }
    ensures { result ≡ (job_of job.entry.bytes.now).envelope.time }
{
    let p = codec::place(job.index, 2567);
    codec::num_in(job.bytes, p) as u32
}

pub fn usage_indicator(job: Indexed) -> Stretch
    requires { EnvelopeIndexed job.bytes.now job.index.now }
    ensures { Holds job.entry.bytes.now result (job_of job.entry.bytes.now).envelope.usage_indicator }
{
    let p = codec::place(job.index, 2568);
    stretch_at(job.bytes, p)
}

pub fn control_number(job: Indexed) -> u64
    requires { EnvelopeIndexed job.bytes.now job.index.now }
    ensures { result ≡ (job_of job.entry.bytes.now).envelope.control_number }
{
    let p = codec::place(job.index, 2569);
    codec::long_in(job.bytes, p)
}

pub fn element_separator(job: Indexed) -> u8
    requires { EnvelopeIndexed job.bytes.now job.index.now }
    ensures { result ≡ (job_of job.entry.bytes.now).envelope.element }
{
    let p = codec::place(job.index, 2570);
    job.bytes[p]
}

pub fn component_separator(job: Indexed) -> u8
    requires { EnvelopeIndexed job.bytes.now job.index.now }
    ensures { result ≡ (job_of job.entry.bytes.now).envelope.component }
{
    let p = codec::place(job.index, 2571);
    job.bytes[p]
}

pub fn segment_terminator(job: Indexed) -> u8
    requires { EnvelopeIndexed job.bytes.now job.index.now }
    ensures { result ≡ (job_of job.entry.bytes.now).envelope.segment }
{
    let p = codec::place(job.index, 2572);
    job.bytes[p]
}

pub fn repetition(job: Indexed) -> Option<u32>
    requires { EnvelopeIndexed job.bytes.now job.index.now }
    ensures { HoldsByte result (job_of job.entry.bytes.now).envelope.repetition }
{
    let p = codec::place(job.index, 2573);
    byte_number_at(job.bytes, p)
}

pub fn line_break(job: Indexed) -> bool
    requires { EnvelopeIndexed job.bytes.now job.index.now }
    ensures { result ≡ (job_of job.entry.bytes.now).envelope.line_break }
{
    let p = codec::place(job.index, 2574);
    flag_at(job.bytes, p)
}
