// What an element of a trigger takes: a field of the envelope, the version, its first code.
ghost use Rattle.std.specs.Prelude.{◌≡◌, List, ℕ, ◌+◌, ◌≤◌, ◌<◌, length, Option, None, Some};
ghost use Rattle.format.specs.Spec.{ElementDef};
ghost use Rattle.format.specs.Ask.{same_bytes};
ghost use Rattle.spec.specs.Answers.{stretch_of, Holds, HoldsText};
ghost use Rattle.spec.specs.Cursor.{ElementSays};
ghost use Rattle.texts.specs.Reason.{Outcome};
ghost use Rattle.texts.specs.Said.{Says};
ghost use Rattle.nest.specs.Lists.{on};
ghost use Rattle.emit.specs.Envelope.{plainly, outcome, separator, trim_end, is_white, fielded, version_at, versioned, unsourced};
ghost use Rattle.trigger.specs.Source.{Tells, otherwise};
ghost use Rattle.nest.specs.Job.{job_by};

use emit::cells::Written;
use emit::{cells, envelope, signs};
use nest::Job;
use spec::envelope as caller;
use spec::ids::{Element, Stretch, VersionRule};
use texts::render::Refused;
use texts::{parse, render};

// A text with the reason why there is none, the field that it comes from, and whether it is tried for separators.
#[derive(Clone, Copy)]
pub struct Source {
    pub field: Option<u8>,
    pub given: Written,
    pub checked: bool,
}

// ---- the forms of a text

fn of_stretch(field: Option<u8>, s: Stretch) -> Source
    ensures { (job v : List ℕ) → Holds job s v → Tells job (Some result) (Some (record { field = field; given = plainly v })) }
{
    let given = cells::code_text(s);
    Source {
        field,
        given,
        checked: true,
    }
}

fn of_said(field: Option<u8>, said: Result<texts::Text, Refused>) -> Source
    ensures { (job : List ℕ) (o : Outcome) → length o.text ≤ 48 → Says said o → Tells job (Some result) (Some (record { field = field; given = outcome o })) }
{
    let given = cells::of_said(said);
    Source {
        field,
        given,
        checked: true,
    }
}

// A separator as the value itself.
fn of_byte(field: Option<u8>, b: u8) -> Source
    ensures { (job : List ℕ) → Tells job (Some result) (Some (record { field = field; given = separator b })) }
{
    let mut bytes = [0u8; 48];
    bytes[0] = b;
    let value = segment::own(bytes, 1);
    Source {
        field,
        given: Written {
            value,
            reason: None,
        },
        checked: false,
    }
}

// ---- the fields

fn is_white(b: u8) -> bool
    ensures { result ≡ is_white b }
{
    b == 32 || (9 <= b && b <= 13)
}

// A stretch of the job without the white space at its end.
fn trim_end(job: &[u8], s: Stretch) -> Stretch
    requires { s.start + s.len ≤ length job.now }
    ensures { Holds job.now result (trim_end (stretch_of job.now s)) }
{
    let start = s.start;
    for n in (0..s.len).rev() {
        if !is_white(job[start + n]) {
            return Stretch { start, len: n + 1 };
        }
    }
    Stretch { start: 0, len: 0 }
}

// The code of an application, or else an id without the white space at its end.
fn application(job: &[u8], code: Option<Stretch>, id: Stretch) -> Stretch
    requires { id.start + id.len ≤ length job.now }
    ensures { (x : Option (List ℕ)) → HoldsText job.now code x → Holds job.now result (on x (λ v. v) (trim_end (stretch_of job.now id))) }
{
    match code {
        Some(s) => s,
        None => trim_end(job, id),
    }
}

// The repetition element's own code, or else the separator where there is one.
fn repetition_source(job: Job, f: u8, x: Element) -> Option<Source>
    requires { f ≡ 10 }
    ensures { (y : ℕ × ElementDef) → ElementSays job.entry.at.bytes.now x y → Tells job.entry.at.bytes.now result (fielded (job_by job.entry).envelope y.1 f) }
{
    if let Some(s) = x.code {
        return Some(of_stretch(Some(f), s));
    }
    let b = signs::repetition_of(job.at)?;
    Some(of_byte(Some(f), b))
}

// What a field gives an element. A field is its number, as the layout of the triggers and the findings have it (docs/RULES.md, "Envelope fields").
fn field_source(job: Job, f: u8, x: Element) -> Option<Source>
    ensures { (y : ℕ × ElementDef) → ElementSays job.entry.at.bytes.now x y → Tells job.entry.at.bytes.now result (fielded (job_by job.entry).envelope y.1 f) }
{
    match f {
        0 => Some(of_stretch(Some(f), caller::sender_qualifier(job.at))),
        1 => Some(of_stretch(Some(f), caller::sender_id(job.at))),
        2 => Some(of_stretch(Some(f), caller::receiver_qualifier(job.at))),
        3 => Some(of_stretch(Some(f), caller::receiver_id(job.at))),
        4 => {
            let code = caller::application_sender(job.at);
            let id = caller::sender_id(job.at);
            Some(of_stretch(Some(f), application(job.at.bytes, code, id)))
        }
        5 => {
            let code = caller::application_receiver(job.at);
            let id = caller::receiver_id(job.at);
            Some(of_stretch(Some(f), application(job.at.bytes, code, id)))
        }
        6 => {
            let days = parse::from_bits(caller::date(job.at));
            Some(of_said(Some(f), render::envelope_date(days, cells::width_of(x.max))))
        }
        7 => {
            let seconds = parse::from_bits(caller::time(job.at));
            Some(of_said(
                Some(f),
                render::envelope_time(seconds, cells::width_of(x.max)),
            ))
        }
        8 => Some(of_stretch(Some(f), caller::usage_indicator(job.at))),
        10 => repetition_source(job, f, x),
        11 => Some(of_byte(Some(f), caller::component_separator(job.at))),
        _ => None,
    }
}

// ---- the spec

// Whether two stretches hold the same bytes.
fn same(job: &[u8], a: Stretch, b: Stretch) -> bool
    requires { (a.start + a.len ≤ length job.now) × (b.start + b.len ≤ length job.now) }
    ensures { result ≡ same_bytes (stretch_of job.now a) (stretch_of job.now b) }
{
    column::same::same_bytes(job, a.start, a.len, b.start, b.len)
}

// The first code of an element.
fn code_source(x: Element) -> Source
    ensures { (job : List ℕ) (y : ℕ × ElementDef) → ElementSays job x y → Tells job (Some result) (Some (unsourced y.1)) }
{
    of_stretch(None, x.code.unwrap_or(Stretch { start: 0, len: 0 }))
}

// The version where it names this element, or else the first code.
fn spec_source(job: Job, id: Stretch, x: Element) -> Source
    requires { id.start + id.len ≤ length job.at.bytes.now }
    ensures { (y : ℕ × ElementDef) → ElementSays job.entry.at.bytes.now x y
        → Tells job.entry.at.bytes.now (Some result) (Some (on (version_at (job_by job.entry) (stretch_of job.entry.at.bytes.now id) y.0) versioned (unsourced y.1))) }
{
    match spec::version::version(job.at) {
        Some(v) if same(job.at.bytes, v.segment, id) && v.element == x.number => {
            of_stretch(Some(12), v.first)
        }
        _ => code_source(x),
    }
}

// What an element of a trigger takes that is not the control number's.
pub fn source_of(job: Job, id: Stretch, depth: u32, x: Element) -> Option<Source>
    requires { id.start + id.len ≤ length job.at.bytes.now }
    ensures { (y : ℕ × ElementDef) → ElementSays job.entry.at.bytes.now x y
        → Tells job.entry.at.bytes.now result (otherwise (job_by job.entry) (stretch_of job.entry.at.bytes.now id) depth y.0 y.1) }
{
    let held = envelope::field_at(depth as usize, x.number);
    match held {
        Some(f) => field_source(job, f, x),
        None => Some(spec_source(job, id, x)),
    }
}
