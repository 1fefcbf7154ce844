// What the walk knows of the steps before, and how a step moves it on.
ghost use Rattle.std.specs.Prelude.{◌≡◌, [], ◌∷◌, take};
ghost use Rattle.lent.specs.Fit.{more};
ghost use Rattle.lent.specs.Window.{Noted};
ghost use Rattle.nest.specs.Finding.{out_of_order};
ghost use Rattle.emit.specs.Fold.{higher, next, previous};
ghost use Rattle.emit.specs.Written.{words_of};
ghost use Rattle.emit.specs.Did.{mark_of, row_in, Finished};
ghost use Rattle.emit.specs.Words.{traced_word};

use spec::ids::{RowId, TableId};

// A table's highest row entered, if one was.
pub type Mark = Option<RowId>;

// The trace entries so far and those before the segment that is not finished yet; then how many bytes of the document and numbers of the
// other lists there are, stored or not. That they are within the cap (`Within`) is asked by who needs it.
#[derive(Clone, Copy)]
pub struct Counts {
    pub entries: usize,
    pub begun: usize,
    pub bytes: usize,
    pub segments: usize,
    pub findings: usize,
    pub stops: usize,
}

// The highest row of each table, the next control number of each loop, and the counts. There is no heap, so the arrays have room for the most that a job
// has: a mark stands at its table, a number at its loop.
#[derive(Clone, Copy)]
pub struct State {
    pub high: [Mark; 16],
    pub counter: [u64; 32],
    pub counts: Counts,
}

// The state behind some steps, and how many segments they wrote.
#[derive(Clone, Copy)]
pub struct Taken {
    pub state: State,
    pub written: usize,
}

// What a segment comes from: the envelope, or a row of a table.
#[derive(Clone, Copy)]
pub enum From {
    Envelope,
    Row(TableId, RowId),
}

// ---- rows

// A table's highest row when row r is entered.
pub fn raised(m: Mark, r: RowId) -> Mark
    ensures { mark_of result ≡ higher (mark_of m) r.0 }
{
    match m {
        Some(high) => Some(RowId(high.0.max(r.0))),
        None => Some(r),
    }
}

// A row is lower than the highest yet entered: a finding of kind 3, a number since C reads it.
pub fn note_order(
    findings: &mut [u64],
    at: usize,
    t: TableId,
    r: RowId,
    above: u32,
    reference: u64,
    highest: u32,
) -> usize
    ensures { Noted findings.old at (words_of (out_of_order t.0 r.0 above reference highest ∷ [])) result findings.new }
{
    let words = [
        3,
        t.0 as u64,
        r.0 as u64,
        above as u64,
        reference,
        highest as u64,
        0,
        0,
        0,
        0,
    ];
    lent::note_words(findings, at, words, 10)
}

// ---- segments

fn trace_words(entry: usize, from: From) -> [u64; 10]
    ensures { take 3 result ≡ traced_word (record { entry = entry; row = row_in from }) }
{
    match from {
        From::Envelope => [entry as u64, 0, 0, 0, 0, 0, 0, 0, 0, 0],
        From::Row(t, r) => [
            entry as u64,
            t.0 as u64 + 1,
            r.0 as u64,
            0,
            0,
            0,
            0,
            0,
            0,
            0,
        ],
    }
}

// A segment is finished, with so many trace entries more; the document then has `bytes` bytes, the findings `findings` numbers.
pub fn finish_segment(
    segments: &mut [u64],
    s: Counts,
    from: From,
    entries: usize,
    bytes: usize,
    findings: usize,
) -> Counts
    ensures { Finished from entries bytes findings s result segments.old segments.new }
{
    let words = trace_words(s.begun, from);
    let at = lent::put_words(segments, s.segments, words, 3);
    let count = lent::more(s.entries, entries);
    let mut n = s;
    n.segments = at;
    n.entries = count;
    n.begun = count;
    n.bytes = bytes;
    n.findings = findings;
    n
}

// ---- control numbers

// The number after n; after the highest comes 0.
pub fn next_number(n: u64) -> u64
    ensures { result ≡ next n }
{
    n.wrapping_add(1)
}

// The number before n: that which was taken last where n is the next.
pub fn last_number(n: u64) -> u64
    ensures { result ≡ previous n }
{
    n.wrapping_sub(1)
}
