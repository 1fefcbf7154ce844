// The trigger of an envelope loop, element by element.
ghost use Rattle.std.specs.Prelude.{◌≡◌, true, List, [], ◌∷◌, ℕ, ◌+◌, ◌≤◌, ◌<◌, length, ltb, Option, None};
ghost use Rattle.lent.specs.Window.{Noted};
ghost use Rattle.lent.specs.Fit.{more};
ghost use Rattle.format.specs.Spec.{ElementDef};
ghost use Rattle.format.specs.Ask.{min_of, segment_def};
ghost use Rattle.spec.specs.Answers.{stretch_of, rule_of};
ghost use Rattle.spec.specs.Cursor.{Entries, ElementSays};
ghost use Rattle.segment.specs.Parts.{pick};
ghost use Rattle.segment.specs.declared.Separators as Signs;
ghost use Rattle.segment.specs.Values.{value_text, Plain};
ghost use Rattle.nest.specs.Lists.{on};
ghost use Rattle.nest.specs.Finding.{Origin, Place as In, field};
ghost use Rattle.emit.specs.Puts.{nothing, put_all, part_at, held_in};
ghost use Rattle.emit.specs.Written.{spot_of, words_of, tried};
ghost use Rattle.emit.specs.Envelope.{Sourced, field_findings, padded_to, put_sourced, opener_put};
ghost use Rattle.codec.specs.Maps.{rises_from};
ghost use Rattle.texts.specs.Said.{why_in};
ghost use Rattle.trigger.specs.Source.{text_in, sourced_by, Short, Tells};
ghost use Rattle.trigger.specs.Drawn.{trigger_of, element_put, put_by, Draws, Adds, Known, Opening, Drew, Opened};
ghost use Rattle.nest.specs.Job.{job_by};

use crate::frame::Frame;
use crate::given::{Source, source_of};
use emit::cells::{Written, width_of};
use emit::findings::{Delimiters, Spot};
use emit::{closer, envelope, findings};
use nest::Job;
use segment::{Pen, Separators, Value};
use spec::elements;
use spec::ids::{Element, Elements, Stretch};

// What is drawn of a trigger: the pen, whether a part at element 0 stays, how many numbers of findings there are, the trace entries and
// the last filled element.
#[derive(Clone, Copy)]
pub struct Drawn {
    pub pen: Pen,
    pub stuck: bool,
    pub findings: usize,
    pub entries: usize,
    pub last: usize,
}

// ---- one text

fn draw(doc: &mut [u8], job: &[u8], s: Separators, pen: Pen, stuck: bool, p: usize, v: Value) -> Pen
    ensures { Draws s stuck (part_at p None (value_text job.now v) ∷ []) pen doc.old (pick stuck true (ltb p 1)) result doc.new }
{
    if stuck {
        return pen;
    }
    if p < 1 {
        return pen;
    }
    closer::put_plain(doc, job, s, pen, p, v)
}

fn sticks(stuck: bool, p: usize) -> bool
    ensures { result ≡ pick stuck true (ltb p 1) }
{
    stuck || p < 1
}

// The trace entries of a text: one where it comes from a field.
fn entries_of(field: Option<u8>) -> usize
    ensures { result ≡ on field (λ f. 1) 0 }
{
    usize::from(field.is_some())
}

fn try_checked(
    job: &[u8],
    findings: &mut [u64],
    at: usize,
    v: Value,
    w: Spot,
    d: Delimiters,
    checked: bool,
) -> usize
    ensures { (o : Origin) (p : In) → w ≡ spot_of o p
        → Noted findings.old at (words_of (pick checked (held_in o p (value_text job.now v) 0 (tried d)) [])) result findings.new }
{
    if checked {
        return findings::try_delimiters(findings, at, job, v, w, d);
    }
    lent::more(at, 0)
}

// The findings on a text that comes from field f.
fn note_field(findings: &mut [u64], at: usize, w: &Frame, f: u8, p: u32, src: Source) -> usize
    ensures { Noted findings.old at (words_of (field_findings (job_by w.now.job) (trigger_of w.now) p f (sourced_by w.now.job.at.bytes.now src).given (text_in w.now.job.at.bytes.now src))) result findings.new }
{
    let spot = Spot {
        origin: 1,
        table: f as u64,
        row: 0,
        column: 0,
        identifier: w.name,
        element: p as u64,
        component: 0,
    };
    let d = w.delimiters;
    let v = src.given.value;
    let a = try_checked(w.job.at.bytes, findings, at, v, spot, d, src.checked);
    findings::note_reason(findings, a, spot, src.given.reason)
}

fn note_text(findings: &mut [u64], at: usize, w: &Frame, p: u32, src: Source) -> usize
    ensures { Noted findings.old at (words_of (put_by (job_by w.now.job) (trigger_of w.now) p src.field (why_in src.given.reason) src.checked (text_in w.now.job.at.bytes.now src)).findings) result findings.new }
{
    match src.field {
        None => lent::more(at, 0),
        Some(f) => note_field(findings, at, w, f, p, src),
    }
}

// A text at element p.
#[inline(always)]
fn put_text(
    doc: &mut [u8],
    findings: &mut [u64],
    w: &Frame,
    p: u32,
    src: Source,
    at: Drawn,
) -> Drawn
    ensures { Adds w.now.sep (put_by (job_by w.now.job) (trigger_of w.now) p src.field (why_in src.given.reason) src.checked (text_in w.now.job.at.bytes.now src)) at result doc.old doc.new findings.old findings.new }
{
    let job = w.job.at.bytes;
    let noted = note_text(findings, at.findings, w, p, src);
    let v = src.given.value;
    let s = w.sep;
    let before = at.pen;
    let pen = draw(doc, job, s, before, at.stuck, p as usize, v);
    let stuck = sticks(at.stuck, p as usize);
    let last = segment::raised(job, at.last, v, p as usize);
    let entries = lent::more(at.entries, entries_of(src.field));
    Drawn {
        pen,
        stuck,
        findings: noted,
        entries,
        last,
    }
}

// ---- one element

// The text of a source, padded to its element's width unless it was refused.
fn value_of(job: &[u8], src: Source, x: Element) -> Value
    requires { (length job.now ≤ 65536) × Plain src.given.value }
    ensures { (y : ℕ × ElementDef) → ElementSays job.now x y → value_text job.now result ≡ padded_to y.1 (why_in src.given.reason) (text_in job.now src) }
{
    let v = src.given.value;
    if src.given.reason.is_some() {
        return v;
    }
    let min = width_of(x.min);
    let max = width_of(x.max);
    envelope::padded_value(job, v, x.numeric, min, max)
}

// An element that is left out.
fn skip(at: Drawn) -> Drawn
    ensures { (s : Signs.Separators) (d f : List ℕ) → Adds s nothing at result d d f f }
{
    let findings = lent::more(at.findings, 0);
    let entries = lent::more(at.entries, 0);
    let pen = at.pen;
    Drawn {
        pen,
        stuck: at.stuck,
        findings,
        entries,
        last: at.last,
    }
}

fn put_source(
    doc: &mut [u8],
    findings: &mut [u64],
    w: &Frame,
    x: Element,
    src: Option<Source>,
    at: Drawn,
) -> Drawn
    requires { Short src }
    ensures { (y : ℕ × ElementDef) (o : Option Sourced) → ElementSays w.now.job.at.bytes.now x y → Tells w.now.job.at.bytes.now src o
        → Adds w.now.sep (on o (put_sourced (job_by w.now.job) (trigger_of w.now) y.0 y.1) nothing) at result doc.old doc.new findings.old findings.new }
{
    match src {
        Some(from) => {
            let value = value_of(w.job.at.bytes, from, x);
            let given = Written {
                value,
                reason: from.given.reason,
            };
            let padded = Source { given, ..from };
            put_text(doc, findings, w, x.number, padded, at)
        }
        None => skip(at),
    }
}

fn put_element(doc: &mut [u8], findings: &mut [u64], w: &Frame, x: Element, at: Drawn) -> Drawn
    requires { Known w.now.job.at.bytes.now x }
    ensures { (y : ℕ × ElementDef) → ElementSays w.now.job.at.bytes.now x y → min_of (job_by w.now.job) (trigger_of w.now) y.0 ≡ y.1.min
        → Adds w.now.sep (element_put w.now y) at result doc.old doc.new findings.old findings.new }
{
    if x.number == w.rule.opener {
        let value = envelope::control_value(w.number, width_of(x.min));
        let number = Source {
            field: Some(9),
            given: Written {
                value,
                reason: None,
            },
            checked: true,
        };
        return put_text(doc, findings, w, x.number, number, at);
    }
    let src = source_of(w.job, w.id, w.depth, x);
    put_source(doc, findings, w, x, src, at)
}

// ---- all of them

fn put_elements(
    doc: &mut [u8],
    findings: &mut [u64],
    w: &Frame,
    c: Elements,
    pen: Pen,
    at: usize,
) -> Drawn
    requires { Opening w.now c }
    ensures { (o : Opening w.now c) → Drew w.now.sep (put_all (element_put w.now) o.elements) pen at result doc.old doc.new findings.old findings.new }
{
    let start = lent::more(at, 0);
    let mut drawn = Drawn {
        pen,
        stuck: false,
        findings: start,
        entries: 0,
        last: 0,
    };
    let mut rest = c;
    // the cursor over the elements counts itself
    while 0 < rest.left {
        let x = elements::element(w.job.at.bytes, rest);
        drawn = put_element(doc, findings, w, x, drawn);
        rest = elements::next_element(w.job.at.bytes, rest);
    }
    drawn
}

// The elements that the definition of a segment has.
fn elements_in(job: Job, id: Stretch) -> Elements
    requires { id.start + id.len ≤ length job.at.bytes.now }
    ensures { Entries job.entry.at.bytes.now result (on (segment_def (job_by job.entry) (stretch_of job.entry.at.bytes.now id)) (λ d. d) [])
        × (rises_from 0 (on (segment_def (job_by job.entry) (stretch_of job.entry.at.bytes.now id)) (λ d. d) []) ≡ true) }
{
    match spec::segments::elements_of(job.at, id) {
        None => Elements { left: 0, at: 0 },
        Some(p) => elements::elements(job.at.bytes, p),
    }
}

// What a trigger came to: the bytes of the document, the numbers of findings, the trace entries.
#[derive(Clone, Copy)]
pub struct Put {
    pub bytes: usize,
    pub findings: usize,
    pub entries: usize,
}

// A trigger's bytes from `at` on, and its findings from `noted` on.
pub fn put_opener(doc: &mut [u8], findings: &mut [u64], w: &Frame, at: usize, noted: usize) -> Put
    ensures { Opened (job_by w.now.job) (trigger_of w.now) (opener_put (job_by w.now.job) w.now.l.0 (rule_of w.now.rule) w.now.number) at noted result doc.old doc.new findings.old findings.new }
{
    let id = w.id;
    let c = elements_in(w.job, id);
    let pen = segment::begin(doc, at, w.job.at.bytes, id.start, id.len);
    let drawn = put_elements(doc, findings, w, c, pen, noted);
    let s = w.sep;
    let end = drawn.pen;
    let bytes = segment::close(doc, s, end, drawn.last);
    Put {
        bytes,
        findings: drawn.findings,
        entries: drawn.entries,
    }
}
