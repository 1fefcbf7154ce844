// The findings on a text, ten numbers each.
ghost use Rattle.std.specs.Prelude.{◌≡◌, true, false, List, [], ◌∷◌, ◌++◌, ℕ};
ghost use Rattle.lent.specs.Window.{stretch, Noted};
ghost use Rattle.segment.specs.Values.{value_text, holds_any, one_of};
ghost use Rattle.texts.specs.Said.{why_in};
ghost use Rattle.nest.specs.Finding.{Origin, Place, cell, number_from};
ghost use Rattle.emit.specs.Puts.{held_in, place_of, unwritten};
ghost use Rattle.emit.specs.Written.{spot_of, spotted, words_of, tried, tried_last};

use crate::cells::Written;
use crate::{cells, signs};
use segment::{Signs, Value};
use spec::ids::{RowId, TableId};
use texts::render::Refused;

// Where a text comes from and where it goes: its origin (0 a cell, 1 a field), table or field, row, column; its segment's identifier
// as a number, element, component plus one or 0. These are numbers of a finding, which C reads.
#[derive(Clone, Copy)]
pub struct Spot {
    pub origin: u64,
    pub table: u64,
    pub row: u64,
    pub column: u64,
    pub identifier: u64,
    pub element: u64,
    pub component: u64,
}

// The separators that a text is tried for.
#[derive(Clone, Copy)]
pub struct Delimiters {
    pub element: u8,
    pub component: u8,
    pub segment: u8,
    pub repetition: Option<u8>,
}

// The spot of a cell's text; `identifier` is its segment's as a number.
pub fn cell_spot(
    t: TableId,
    r: RowId,
    column: u32,
    identifier: u64,
    element: u32,
    component: Option<u32>,
) -> Spot
    ensures { (id : List ℕ) → identifier ≡ number_from 0 id → result ≡ spot_of (cell t.0 r.0 column) (place_of id element component) }
{
    let component = signs::component_word(component);
    Spot {
        origin: 0,
        table: t.0 as u64,
        row: r.0 as u64,
        column: column as u64,
        identifier,
        element: element as u64,
        component,
    }
}

// A finding of that kind on a text: 4 a separator in it, 5 a reason why there is none. Kinds are numbers, since C reads a finding as ten of them.
fn note(findings: &mut [u64], at: usize, kind: u64, w: Spot, a: u64, b: u64) -> usize
    ensures { Noted findings.old at (spotted kind w a b) result findings.new }
{
    let words = [
        kind,
        w.origin,
        w.table,
        w.row,
        w.column,
        w.identifier,
        w.element,
        w.component,
        a,
        b,
    ];
    lent::note_words(findings, at, words, 10)
}

// Whether a text holds a separator.
fn try_one(
    findings: &mut [u64],
    at: usize,
    job: &[u8],
    v: Value,
    w: Spot,
    b: u8,
    role: u64,
) -> usize
    ensures { (o : Origin) (p : Place) → w ≡ spot_of o p
        → Noted findings.old at (words_of (held_in o p (value_text job.now v) role (b ∷ []))) result findings.new }
{
    if segment::holds(job, v, b) {
        return note(findings, at, 4, w, b as u64, role);
    }
    lent::more(at, 0)
}

fn try_last(findings: &mut [u64], at: usize, job: &[u8], v: Value, w: Spot, r: Option<u8>) -> usize
    ensures { (o : Origin) (p : Place) → w ≡ spot_of o p
        → Noted findings.old at (words_of (held_in o p (value_text job.now v) 3 (tried_last r))) result findings.new }
{
    match r {
        None => lent::more(at, 0),
        Some(b) => try_one(findings, at, job, v, w, b, 3),
    }
}

fn try_from_segment(
    findings: &mut [u64],
    at: usize,
    job: &[u8],
    v: Value,
    w: Spot,
    b: u8,
    r: Option<u8>,
) -> usize
    ensures { (o : Origin) (p : Place) → w ≡ spot_of o p
        → Noted findings.old at (words_of (held_in o p (value_text job.now v) 2 (b ∷ tried_last r))) result findings.new }
{
    let a = try_one(findings, at, job, v, w, b, 2);
    try_last(findings, a, job, v, w, r)
}

fn try_each(findings: &mut [u64], at: usize, job: &[u8], v: Value, w: Spot, d: Delimiters) -> usize
    ensures { (o : Origin) (p : Place) → w ≡ spot_of o p
        → Noted findings.old at (words_of (held_in o p (value_text job.now v) 0 (tried d))) result findings.new }
{
    let a = try_one(findings, at, job, v, w, d.element, 0);
    let b = try_one(findings, a, job, v, w, d.component, 1);
    let r = d.repetition;
    try_from_segment(findings, b, job, v, w, d.segment, r)
}

// The four bytes that a text is tried for; where there is no separator of repetitions, the first stands for it.
fn signs_of(d: Delimiters) -> Signs
    ensures { (o : Origin) (p : Place) (text : List ℕ) → holds_any (one_of result.0 result.1 result.2 result.3) text ≡ false → held_in o p text 0 (tried d) ≡ [] }
{
    let last = d.repetition.unwrap_or(d.element);
    Signs(d.element, d.component, d.segment, last)
}

// Whether a text holds a separator: if not, nothing is to be written.
fn holds_delimiter(job: &[u8], v: Value, d: Delimiters) -> bool
    ensures { (o : Origin) (p : Place) → result ≡ false → held_in o p (value_text job.now v) 0 (tried d) ≡ [] }
{
    segment::holds_any(job, v, signs_of(d))
}

// The same of a stretch of the job.
pub fn stretch_holds(job: &[u8], start: usize, len: usize, d: Delimiters) -> bool
    ensures { (o : Origin) (p : Place) → result ≡ false → held_in o p (stretch job.now start len) 0 (tried d) ≡ [] }
{
    segment::stretch_holds(job, start, len, signs_of(d))
}

// A finding for each separator that a text holds, in the order in which they are tried.
pub fn try_delimiters(
    findings: &mut [u64],
    at: usize,
    job: &[u8],
    v: Value,
    w: Spot,
    d: Delimiters,
) -> usize
    ensures { (o : Origin) (p : Place) → w ≡ spot_of o p
        → Noted findings.old at (words_of (held_in o p (value_text job.now v) 0 (tried d))) result findings.new }
{
    if holds_delimiter(job, v, d) {
        return try_each(findings, at, job, v, w, d);
    }
    lent::more(at, 0)
}

// A finding for a reason.
pub fn note_reason(findings: &mut [u64], at: usize, w: Spot, reason: Option<Refused>) -> usize
    ensures { (o : Origin) (p : Place) → w ≡ spot_of o p → Noted findings.old at (words_of (unwritten o p (why_in reason))) result findings.new }
{
    match reason {
        Some(why) => note(findings, at, 5, w, cells::reason_of(why), 0),
        None => lent::more(at, 0),
    }
}

// Whether a cell's text has no finding, as is usual.
pub fn silent(job: &[u8], x: Written, d: Delimiters) -> bool
    ensures { (o : Origin) (p : Place) → result ≡ true → unwritten o p (why_in x.reason) ++ held_in o p (value_text job.now x.value) 0 (tried d) ≡ [] }
{
    if x.reason.is_some() {
        return false;
    }
    let v = x.value;
    !holds_delimiter(job, v, d)
}

// The findings on a cell's text.
pub fn note_cell(
    findings: &mut [u64],
    at: usize,
    job: &[u8],
    x: Written,
    w: Spot,
    d: Delimiters,
) -> usize
    ensures { (o : Origin) (p : Place) → w ≡ spot_of o p
        → Noted findings.old at (words_of (unwritten o p (why_in x.reason) ++ held_in o p (value_text job.now x.value) 0 (tried d))) result findings.new }
{
    let a = note_reason(findings, at, w, x.reason);
    let v = x.value;
    try_delimiters(findings, a, job, v, w, d)
}
