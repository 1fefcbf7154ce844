// A segment's bytes, from the texts at its places.
#![tactic(auto)]

pub mod laws;
pub mod read;

ghost use Rattle.std.specs.Prelude.{◌≡◌, List, [], ◌++◌, ℕ, ◌+◌, ◌-◌, ◌≤◌, ◌<◌, max, take, replicate};
ghost use Rattle.lent.specs.Fit.{more, Stored};
ghost use Rattle.lent.specs.Window.{stretch};
ghost use Rattle.segment.specs.Calls.{Gives};
ghost use Rattle.segment.specs.Group.{Group};
ghost use Rattle.segment.specs.Parts.{pick, is_empty};
ghost use Rattle.segment.specs.Values.{value_text, Plain, holds, holds_any, one_of, opened, closing};
ghost use Rattle.segment.specs.Pen.{components_in, due, placed, finished, ending, Penned};

// The bytes that part a document, and whether a line feed follows each terminator.
#[derive(Clone, Copy)]
pub struct Separators {
    pub element: u8,
    pub component: u8,
    pub segment: u8,
    pub line_break: bool,
}

// A text: zeros, the first `count` of `bytes`, `len` bytes of the job from `start` on, spaces.
#[derive(Clone, Copy)]
pub struct Value {
    pub zeros: usize,
    pub bytes: [u8; 48],
    pub count: usize,
    pub start: usize,
    pub len: usize,
    pub spaces: usize,
}

// How far a segment is written: bytes of the document, element separators, component separators in the last element. The document itself is passed
// beside it.
#[derive(Clone, Copy)]
pub struct Pen {
    pub at: usize,
    pub elements: usize,
    pub components: usize,
}

// Whether a text is empty.
pub fn is_empty(job: &[u8], v: Value) -> bool
    ensures { result ≡ is_empty (value_text job.now v) }
{
    let bytes = v.bytes;
    v.zeros == 0
        && v.spaces == 0
        && lent::stretch_len(&bytes, 0, v.count) == 0
        && lent::stretch_len(job, v.start, v.len) == 0
}

// The higher of a number and that of a text, which counts where the text is filled.
pub fn raised(job: &[u8], m: usize, v: Value, n: usize) -> usize
    ensures { result ≡ max m (pick (is_empty (value_text job.now v)) 0 n) }
{
    if is_empty(job, v) {
        return m;
    }
    m.max(n)
}

// A text of the job.
pub fn held(start: usize, len: usize) -> Value
    ensures text { (job : List ℕ) → value_text job result ≡ stretch job start len }
    ensures plain { Plain result }
{
    Value {
        zeros: 0,
        bytes: [0u8; 48],
        count: 0,
        start,
        len,
        spaces: 0,
    }
}

// A text of its own.
pub fn own(bytes: [u8; 48], count: usize) -> Value
    ensures text { (job : List ℕ) → value_text job result ≡ take count bytes }
    ensures plain { count ≤ 48 → Plain result }
{
    Value {
        zeros: 0,
        bytes,
        count,
        start: 0,
        len: 0,
        spaces: 0,
    }
}

// Four bytes that a text is tried for.
#[derive(Clone, Copy)]
pub struct Signs(pub u8, pub u8, pub u8, pub u8);

fn one_of(x: u8, s: Signs) -> bool
    ensures { result ≡ one_of s.0 s.1 s.2 s.3 x }
{
    x == s.0 || x == s.1 || x == s.2 || x == s.3
}

fn run_holds(n: usize, x: u8, s: Signs) -> bool
    ensures { result ≡ holds_any (one_of s.0 s.1 s.2 s.3) (replicate n x) }
{
    n != 0 && one_of(x, s)
}

// Whether one of four bytes is in a stretch.
pub fn stretch_holds(source: &[u8], start: usize, len: usize, s: Signs) -> bool
    ensures { result ≡ holds_any (one_of s.0 s.1 s.2 s.3) (stretch source.now start len) }
{
    let n = lent::stretch_len(source, start, len);
    for i in 0..n {
        if one_of(source[start + i], s) {
            return true;
        }
    }
    false
}

// Whether one of four bytes is in a text.
pub fn holds_any(job: &[u8], v: Value, s: Signs) -> bool
    ensures { result ≡ holds_any (one_of s.0 s.1 s.2 s.3) (value_text job.now v) }
{
    let bytes = v.bytes;
    run_holds(v.zeros, b'0', s)
        || run_holds(v.spaces, b' ', s)
        || stretch_holds(&bytes, 0, v.count, s)
        || stretch_holds(job, v.start, v.len, s)
}

// Whether a byte is in a text.
pub fn holds(job: &[u8], v: Value, b: u8) -> bool
    ensures { result ≡ holds b (value_text job.now v) }
{
    holds_any(job, v, Signs(b, b, b, b))
}

fn put_front(doc: &mut [u8], at: usize, v: Value) -> usize
    ensures { Stored doc.old at (replicate v.zeros 48 ++ take v.count v.bytes) result doc.new }
{
    let a = lent::put_run(doc, at, b'0', v.zeros);
    if v.count == 0 {
        return a;
    }
    let bytes = v.bytes;
    lent::put_stretch(doc, a, &bytes, 0, v.count)
}

fn put_back(doc: &mut [u8], at: usize, job: &[u8], v: Value) -> usize
    ensures { Stored doc.old at (stretch job.now v.start v.len ++ replicate v.spaces 32) result doc.new }
{
    if v.len == 0 {
        return lent::put_run(doc, at, b' ', v.spaces);
    }
    let a = lent::put_stretch(doc, at, job, v.start, v.len);
    lent::put_run(doc, a, b' ', v.spaces)
}

// A text.
pub fn put_value(doc: &mut [u8], at: usize, job: &[u8], v: Value) -> usize
    ensures { Stored doc.old at (value_text job.now v) result doc.new }
{
    let a = put_front(doc, at, v);
    put_back(doc, a, job, v)
}

// The start of a segment: its identifier, a stretch of the job.
pub fn begin(doc: &mut [u8], at: usize, job: &[u8], start: usize, len: usize) -> Pen
    ensures { Penned (opened (stretch job.now start len)) at result doc.old doc.new }
{
    let a = lent::put_stretch(doc, at, job, start, len);
    Pen {
        at: a,
        elements: 0,
        components: 0,
    }
}

fn components_in(pen: Pen, p: usize) -> usize
    ensures { result ≡ components_in pen p }
{
    if pen.elements < p {
        return 0;
    }
    pen.components
}

// The separators due in front of component c of element p.
#[inline(always)]
fn put_due(doc: &mut [u8], s: Separators, pen: Pen, p: usize, c: usize) -> usize
    ensures { Stored doc.old pen.at (due s pen p c) result doc.new }
{
    let stand = components_in(pen, p);
    let behind = c.saturating_sub(1);
    let m = behind.saturating_sub(stand);
    let n = p.saturating_sub(pen.elements);
    let a = lent::put_run(doc, pen.at, s.element, n);
    lent::put_run(doc, a, s.component, m)
}

// Where the pen stands behind a text at component c of element p, or behind the separators in front of it.
fn reach(at: usize, p: usize, c: usize) -> Pen
    ensures { (result.at ≡ at) × (result.elements ≡ p) × (result.components ≡ c - 1) }
{
    Pen {
        at,
        elements: p,
        components: c.saturating_sub(1),
    }
}

fn stay(pen: Pen) -> Pen
    ensures { (result.at ≡ more pen.at 0) × (result.elements ≡ pen.elements) × (result.components ≡ pen.components) }
{
    let a = lent::more(pen.at, 0);
    Pen {
        at: a,
        elements: pen.elements,
        components: pen.components,
    }
}

// The separators that are due and a text behind them. It answers the place alone: a pen would come back through memory, and be waited for.
fn put_filled(
    doc: &mut [u8],
    job: &[u8],
    s: Separators,
    pen: Pen,
    p: usize,
    c: usize,
    v: Value,
) -> usize
    ensures { Stored doc.old pen.at (due s pen p c ++ value_text job.now v) result doc.new }
{
    let a = put_due(doc, s, pen, p, c);
    put_value(doc, a, job, v)
}

// A text at component c of element p: nothing if it is empty, else the separators that are due and the text.
#[inline(always)]
pub fn component(
    doc: &mut [u8],
    job: &[u8],
    s: Separators,
    pen: Pen,
    p: usize,
    c: usize,
    v: Value,
) -> Pen
    ensures { Penned (placed s pen p c (value_text job.now v)) pen.at result doc.old doc.new }
{
    if is_empty(job, v) {
        return stay(pen);
    }
    let a = put_filled(doc, job, s, pen, p, c, v);
    reach(a, p, c)
}

// A stretch of a list at component c of element p. `component` with a text made of the stretch writes the same, in more instructions
// (docs/BENCHMARKS.md).
#[inline(always)]
pub fn part(
    doc: &mut [u8],
    source: &[u8],
    s: Separators,
    pen: Pen,
    p: usize,
    c: usize,
    start: usize,
    len: usize,
) -> Pen
    ensures { Penned (placed s pen p c (stretch source.now start len)) pen.at result doc.old doc.new }
{
    let n = lent::stretch_len(source, start, len);
    if n == 0 {
        return stay(pen);
    }
    let a = put_due(doc, s, pen, p, c);
    let b = lent::put_stretch(doc, a, source, start, len);
    reach(b, p, c)
}

// A plain text at element p.
pub fn element(doc: &mut [u8], job: &[u8], s: Separators, pen: Pen, p: usize, v: Value) -> Pen
    ensures { Penned (placed s pen p 1 (value_text job.now v)) pen.at result doc.old doc.new }
{
    component(doc, job, s, pen, p, 1, v)
}

// The end of element p, whose last filled component is c: the component separators up to there.
pub fn finish(doc: &mut [u8], s: Separators, pen: Pen, p: usize, c: usize) -> Pen
    ensures { Penned (finished s pen p c) pen.at result doc.old doc.new }
{
    if c < 2 {
        return stay(pen);
    }
    let a = put_due(doc, s, pen, p, c);
    reach(a, p, c)
}

// The components of element p up to the last filled, by who gives each its text.
pub fn put_components<F: Fn(u32) -> Value>(
    doc: &mut [u8],
    job: &[u8],
    s: Separators,
    pen: Pen,
    p: usize,
    last: u32,
    value: F,
) -> Pen
    requires { F.IsAlwaysCallable value }
    ensures { (f : ℕ → List ℕ) → Gives job.now (F.post value) f → Group s last f p 1 pen doc.old result doc.new }
{
    let mut t = pen;
    for c in 1..=last {
        let v = value(c);
        t = component(doc, job, s, t, p, c as usize, v);
    }
    finish(doc, s, t, p, last as usize)
}

fn put_ending(doc: &mut [u8], s: Separators, at: usize) -> usize
    ensures { Stored doc.old at (ending s) result doc.new }
{
    let a = lent::put_byte(doc, at, s.segment);
    if s.line_break {
        return lent::put_byte(doc, a, b'\n');
    }
    a
}

// The end of a segment whose last filled element is `last`: the element separators up to there, the terminator, the line feed.
pub fn close(doc: &mut [u8], s: Separators, pen: Pen, last: usize) -> usize
    ensures { Stored doc.old pen.at (closing s pen last) result doc.new }
{
    let left = last.saturating_sub(pen.elements);
    let a = lent::put_run(doc, pen.at, s.element, left);
    put_ending(doc, s, a)
}
