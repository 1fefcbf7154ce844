// A segment of plain texts, and the closer of a loop.
ghost use Rattle.std.specs.Prelude.{◌≡◌, false, List, [], ◌∷◌, ℕ, ◌≤◌, ◌<◌, None};
ghost use Rattle.lent.specs.Window.{stretch};
ghost use Rattle.lent.specs.Fit.{Stored};
ghost use Rattle.segment.specs.Parts.{pick, is_empty, last_component, component_text, joined};
ghost use Rattle.segment.specs.Values.{value_text};
ghost use Rattle.segment.specs.Group.{Group};
ghost use Rattle.segment.specs.Calls.{Row};
ghost use Rattle.format.specs.Spec.{Control};
ghost use Rattle.format.specs.Job.{Job};
ghost use Rattle.emit.specs.Fold.{separators_of, segment_out};
ghost use Rattle.emit.specs.Did.{DidCounts, Within};
ghost use Rattle.emit.specs.Puts.{part_at};
ghost use Rattle.emit.specs.Envelope.{closer_put};

use crate::state::{Counts, From};
use crate::{envelope, state};
use segment::{Pen, Separators, Value};
use spec::ids::Stretch;

// A closer: the separators, its identifier, the element of its control number and that number's text, the element of its count and the
// count.
#[derive(Clone, Copy)]
pub struct Closer {
    pub sep: Separators,
    pub id: Stretch,
    pub closer: usize,
    pub control: Value,
    pub count: usize,
    pub counted: u64,
}

// A plain text at element p.
pub fn put_plain(doc: &mut [u8], job: &[u8], s: Separators, pen: Pen, p: usize, v: Value) -> Pen
    ensures { Group s (last_component (part_at p None (value_text job.now v) ∷ [])) (component_text (part_at p None (value_text job.now v) ∷ [])) p 1
        pen doc.old result doc.new }
{
    if segment::is_empty(job, v) {
        return segment::finish(doc, s, pen, p, 0);
    }
    let t = segment::element(doc, job, s, pen, p, v);
    segment::finish(doc, s, t, p, 1)
}

fn both_empty(job: &[u8], v: Value, w: Value) -> bool
    ensures { result ≡ pick (is_empty (value_text job.now w)) (is_empty (value_text job.now v)) false }
{
    segment::is_empty(job, w) && segment::is_empty(job, v)
}

// Two plain texts at element p: the first stands.
fn put_same(
    doc: &mut [u8],
    job: &[u8],
    s: Separators,
    pen: Pen,
    p: usize,
    v: Value,
    w: Value,
) -> Pen
    ensures { Group s (last_component (part_at p None (value_text job.now v) ∷ part_at p None (value_text job.now w) ∷ []))
        (component_text (part_at p None (value_text job.now v) ∷ part_at p None (value_text job.now w) ∷ [])) p 1 pen doc.old result doc.new }
{
    if both_empty(job, v, w) {
        return segment::finish(doc, s, pen, p, 0);
    }
    let t = segment::element(doc, job, s, pen, p, v);
    segment::finish(doc, s, t, p, 1)
}

// Two plain texts, the second at the same element or behind.
fn put_two(
    doc: &mut [u8],
    job: &[u8],
    s: Separators,
    pen: Pen,
    p: usize,
    v: Value,
    q: usize,
    w: Value,
    last: usize,
) -> usize
    requires { p ≤ q }
    ensures { Row s last 1 (part_at p None (value_text job.now v) ∷ part_at q None (value_text job.now w) ∷ []) pen doc.old result doc.new }
{
    if p < 1 {
        return segment::close(doc, s, pen, last);
    }
    if p == q {
        let t = put_same(doc, job, s, pen, p, v, w);
        return segment::close(doc, s, t, last);
    }
    let a = put_plain(doc, job, s, pen, p, v);
    let b = put_plain(doc, job, s, a, q, w);
    segment::close(doc, s, b, last)
}

// A segment of two plain texts, the second at the same element or behind; its identifier is a stretch of the job. The texts stay apart from
// the closer that they are of: either may be the first.
pub fn join_two(
    doc: &mut [u8],
    at: usize,
    job: &[u8],
    s: Separators,
    id: Stretch,
    p: usize,
    v: Value,
    q: usize,
    w: Value,
) -> usize
    requires { p ≤ q }
    ensures { Stored doc.old at
        (joined s (stretch job.now id.start id.len) (part_at p None (value_text job.now v) ∷ part_at q None (value_text job.now w) ∷ [])) result doc.new }
{
    let first = segment::raised(job, 0, v, p);
    let last = segment::raised(job, first, w, q);
    let pen = segment::begin(doc, at, job, id.start, id.len);
    put_two(doc, job, s, pen, p, v, q, w, last)
}

// The bytes of a loop's closer: its control number and its count in the order of their elements, the count first where these are equal.
pub fn put_closer(doc: &mut [u8], at: usize, job: &[u8], c: Closer) -> usize
    ensures { (k : Control) → k.closer ≡ c.closer → k.count ≡ c.count
        → Stored doc.old at (joined c.sep (stretch job.now c.id.start c.id.len) (closer_put k (value_text job.now c.control) c.counted).parts) result doc.new }
{
    let number = envelope::count_value(c.counted);
    let s = c.sep;
    let id = c.id;
    let control = c.control;
    if c.count <= c.closer {
        return join_two(doc, at, job, s, id, c.count, number, c.closer, control);
    }
    join_two(doc, at, job, s, id, c.closer, control, c.count, number)
}

// The trace entries of a closer: one, or two where both texts stand at one element.
fn closer_entries(closer: usize, count: usize) -> usize
    ensures { (k : Control) (control : List ℕ) (n : ℕ) → k.closer ≡ closer → k.count ≡ count → result ≡ (closer_put k control n).entries }
{
    if closer == count {
        return 2;
    }
    1
}

// The closer of a loop, written and traced.
pub fn write_closer(
    doc: &mut [u8],
    segments: &mut [u64],
    job: &[u8],
    state: Counts,
    c: Closer,
) -> Counts
    ensures { (j : Job) (k : Control) (f p : List ℕ) → separators_of j ≡ c.sep → k.closer ≡ c.closer → k.count ≡ c.count → Within state
        → DidCounts (segment_out j (stretch job.now c.id.start c.id.len) (closer_put k (value_text job.now c.control) c.counted).parts (closer_put k (value_text job.now c.control) c.counted).findings
        (closer_put k (value_text job.now c.control) c.counted).entries None) state result doc.old doc.new segments.old segments.new f f p p }
{
    let at = put_closer(doc, state.bytes, job, c);
    let entries = closer_entries(c.closer, c.count);
    state::finish_segment(segments, state, From::Envelope, entries, at, state.findings)
}
