// What the parts of a row segment are noted for: the findings on their texts, their trace entries, the last filled element.
ghost use Rattle.std.specs.Prelude.{◌≡◌, ◌≤◌, ◌<◌};
ghost use Rattle.lent.specs.Window.{base, Noted};
ghost use Rattle.lent.specs.Fit.{cap, more, StoredAt};
ghost use Rattle.texts.specs.Said.{why_in};
ghost use Rattle.spec.specs.Answers.{Holds};
ghost use Rattle.nest.specs.Finding.{cell};
ghost use Rattle.emit.specs.Puts.{place_of, unwritten};
ghost use Rattle.emit.specs.Written.{Writes, words_of};
ghost use Rattle.row_segment.specs.Stream.{id_of, Lined, Sees, ahead, part_put, outcome_of};
ghost use Rattle.row_segment.specs.Notes.{Tries, Notes, Room};
ghost use Rattle.row_segment.specs.Feed.{FromCell};

use crate::parts;
use crate::parts::{Line, Look, Planned, Source};
use emit::cells::Written;
use emit::findings::Delimiters;
use emit::{findings, signs};
use nest::Job;
use texts::render::Refused;

// How many numbers of findings there are, how many trace entries, and the last filled element. That entries find room is asked where they are counted.
#[derive(Clone, Copy)]
pub struct Tally {
    pub findings: usize,
    pub entries: usize,
    pub last: usize,
}

// The end of a segment, how many numbers of findings there are then, and its trace entries.
#[derive(Clone, Copy)]
pub struct Ended {
    pub bytes: usize,
    pub findings: usize,
    pub entries: usize,
}

// The identifier as a number, and the separators that texts are tried for. `Tries` says that they are a line's.
#[derive(Clone, Copy)]
pub struct Tried {
    pub name: u64,
    pub delimiters: Delimiters,
}

// What the texts of a line are tried for.
pub fn tried_of(job: Job, x: Line) -> Tried
    requires { Lined job.at.bytes.now x }
    ensures { Tries job.entry.at.bytes.now x result }
{
    let id = x.id;
    Tried {
        name: signs::id_number(job.at.bytes, id),
        delimiters: signs::delimiters_of(job.at),
    }
}

// The findings on a cell's text.
fn note_cell(
    job: &[u8],
    findings: &mut [u64],
    at: usize,
    x: Line,
    y: Tried,
    p: Planned,
    column: u32,
    w: Written,
) -> usize
    requires { Tries job.now x y × Writes job.now w (outcome_of job.now x p) × FromCell p column }
    ensures { StoredAt base findings.old at (words_of (part_put job.now x p).findings) result findings.new }
{
    let d = y.delimiters;
    if findings::silent(job, w, d) {
        return lent::more(at, 0);
    }
    let place = findings::cell_spot(x.t, x.r, column, y.name, p.element, p.component);
    findings::note_cell(findings, at, job, w, place, d)
}

// A finding where a cell's text is refused.
pub fn note_refused(
    job: &[u8],
    findings: &mut [u64],
    at: usize,
    x: Line,
    p: Planned,
    column: u32,
    why: Option<Refused>,
) -> usize
    requires { Holds job.now x.id (id_of job.now x) × (x.id.len ≤ 3) }
    ensures { Noted findings.old at (words_of (unwritten (cell x.t.0 x.r.0 column) (place_of (id_of job.now x) p.element p.component) (why_in why))) result findings.new }
{
    if why.is_none() {
        return lent::more(at, 0);
    }
    let id = x.id;
    let name = signs::id_number(job, id);
    let place = findings::cell_spot(x.t, x.r, column, name, p.element, p.component);
    findings::note_reason(findings, at, place, why)
}

// A part is noted by its text: a cell has findings and a trace entry, a code has neither.
pub fn note_text(
    job: &[u8],
    findings: &mut [u64],
    s: Tally,
    x: Line,
    y: Tried,
    p: Planned,
    w: Written,
) -> Tally
    requires { Tries job.now x y × Writes job.now w (outcome_of job.now x p) × (s.entries < 4294967296) }
    ensures { Notes (part_put job.now x p) s result findings.old findings.new }
{
    let v = w.value;
    let last = segment::raised(job, s.last, v, p.element as usize);
    match p.source {
        Source::Cell(column) => Tally {
            findings: note_cell(job, findings, s.findings, x, y, p, column, w),
            entries: s.entries + 1,
            last,
        },
        Source::Code(_) => Tally {
            findings: lent::more(s.findings, 0),
            entries: s.entries,
            last,
        },
    }
}

// Nothing is noted yet; `at` numbers of findings stand before.
pub fn none_noted(at: usize) -> Tally
    ensures { result ≡ record { findings = more at 0; entries = 0; last = 0 } }
{
    let from = lent::more(at, 0);
    Tally {
        findings: from,
        entries: 0,
        last: 0,
    }
}

// The parts of a look are noted, behind those that a tally has.
pub fn note_rest(job: Job, findings: &mut [u64], t: Tally, x: Line, y: Tried, n: Look) -> Tally
    requires { Lined job.at.bytes.now x × Tries job.at.bytes.now x y × Sees job.at.bytes.now x n × Room job.at.bytes.now x t n × (t.findings ≤ cap) }
    ensures { Notes (ahead job.entry.at.bytes.now x n) t result findings.old findings.new }
{
    let mut s = t;
    let mut a = n;
    // the cursor over the planned elements counts itself
    while let Some(p) = a.part {
        let w = parts::text_of(job, x, p);
        s = note_text(job.at.bytes, findings, s, x, y, p, w);
        a = parts::next_part(job, x, a.k, a.at);
    }
    s
}
