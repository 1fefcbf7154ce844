// The repeat segments of an instance.
#![tactic(auto)]

ghost use Rattle.std.specs.Prelude.{◌≡◌, true, false, ◌&&◌, List, [], ◌∷◌, ◌++◌, ℕ, ◌+◌, ◌≤◌, ◌<◌, max, length, take, set, ltb};
ghost use Rattle.lent.specs.Fit.{cap};
ghost use Rattle.nest.specs.Lists.{keep};
ghost use Rattle.nest.specs.UpTo.{up_to};
ghost use Rattle.nest.specs.Outline.{row_count, repeated};
ghost use Rattle.nest.specs.Found.{hooked_at};
ghost use Rattle.walk.specs.Tour.{stop, fill, chunk, segments_in, repeat_steps};
ghost use Rattle.emit.specs.Fold.{steps_out};
ghost use Rattle.emit.specs.Did.{DidMark, Within};
ghost use Rattle.repeat_segment.specs.Planned.{Of};
ghost use Rattle.repeats.specs.Going.{going};
ghost use Rattle.repeats.specs.Added.{TableIs, PartIs, Holds, Added, Repeats, left};
ghost use Rattle.nest.specs.Job.{outline_by, job_by};

use emit::state::{Counts, Mark};
use enter::Entered;
use nest::order::rises;
use nest::{Job, TableRows};
use repeat_segment::planned::{Planned, planned_segment};
use repeat_segment::{fill_row, write_chunk};
use spec::ids::{LoopId, RowId, TableId};
use walk::Nest;

// A repeat table: where its rows stand among all, up to which of them they are gone through, and how many go into a segment.
#[derive(Clone, Copy)]
pub struct Table {
    pub t: TableId,
    pub base: usize,
    pub rows: usize,
    pub room: u32,
}

// A table with fewer rows, and the first of them to be looked at.
#[derive(Clone, Copy)]
pub struct Part {
    pub table: Table,
    pub from: usize,
}

// The highest row of a table behind some of its repeat segments, the counts, and how many segments were written.
#[derive(Clone, Copy)]
pub struct Repeated {
    pub mark: Mark,
    pub counts: Counts,
    pub written: usize,
}

// A chunk that rows are still added to: the table's highest row, the counts, how many segments stand before it, its first row, and how many rows it has.
// That it is filled as it should be (`Holds`) is said of the table and of the list of rows too.
#[derive(Clone, Copy)]
pub struct Chunk {
    pub mark: Mark,
    pub counts: Counts,
    pub written: usize,
    pub head: RowId,
    pub count: u32,
}

// How many rows go into a segment; 0 counts as 1.
fn room_of(job: Job, t: TableId) -> u32
    ensures { (result ≡ max 1 ((outline_by job.entry).capacity t.0)) × (result < 256) }
{
    plan::layout::capacity(job.at, t).max(1)
}

fn table_of(job: Job, t: TableId) -> Table
    ensures { (result.t.0 ≡ t.0) × TableIs job.entry.at.bytes.now result × (result.rows ≡ row_count (outline_by job.entry) t.0) }
{
    let base = tables::data::first_row(job.at, t);
    let rows = tables::data::row_count(job.at, t);
    let room = room_of(job, t);
    Table {
        t,
        base: base as usize,
        rows: rows as usize,
        room,
    }
}

// The rows of table t that may go into an instance that row p opens: where the rows hang on rising rows, those that hang on p.
fn part_of(nest: Nest, t: TableId, p: RowId) -> Part
    requires { (p.0 < 4096) × (repeated (outline_by nest.job) t.0 ≡ true) }
    ensures { (l : ℕ) → PartIs nest.entry.job.at.bytes.now nest.entry.array.now t.0 l p.0 result }
{
    let mut w = table_of(nest.job, t);
    if rises(nest.array, t) {
        let all = TableRows {
            array: nest.array,
            base: w.base,
            rows: w.rows,
        };
        let low = all.first_at(0, p.0 + 1);
        let high = all.first_at(low, p.0 + 2);
        w.rows = high;
        return Part {
            table: w,
            from: low,
        };
    }
    Part { table: w, from: 0 }
}

// Whether row r joins a chunk of so many rows: there is room, and it agrees with the first.
fn joins(job: Job, l: LoopId, i: u32, head: RowId, count: u32, room: u32, r: RowId) -> bool
    requires { l.0 < 32 }
    ensures { result ≡ ltb count room && (outline_by job.entry).same_chunk l.0 i head.0 r.0 }
{
    count < room && due::same_chunk(job, l, i, head, r)
}

// Row r is entered as number k of its chunk, and gives its cells.
fn add_row(
    nest: Nest,
    rows: &mut [u32],
    findings: &mut [u64],
    stops: &mut [u64],
    m: Mark,
    c: Counts,
    s: Planned,
    k: u32,
    r: RowId,
) -> Entered
    requires { Within c × Of nest.job.at.bytes.now s × (r.0 < row_count (outline_by nest.job) s.table.0) × (k < 256) × (256 ≤ length rows.old) }
    ensures { ((d g : List ℕ) → length d ≤ cap → length g ≤ cap
        → DidMark s.table.0 (steps_out (job_by nest.entry.job) (stop s.l.0 s.table.0 r.0 ∷ fill s.l.0 s.i s.table.0 k r.0 ∷ [])) m result.mark c result.counts d d g g findings.old findings.new stops.old stops.new)
        × (rows.new ≡ set rows.old k r.0) }
{
    let at = k as usize;
    rows[at] = r.0;
    let mut n = enter::enter(nest, findings, stops, m, c, s.l, s.table, r);
    n.counts = fill_row(nest.job, findings, n.counts, s, k, r);
    n
}

// The chunk is written.
fn close(
    job: Job,
    rows: &[u32],
    doc: &mut [u8],
    segments: &mut [u64],
    c: Chunk,
    s: Planned,
) -> Repeated
    requires { Within c.counts × Of job.at.bytes.now s × (c.count ≤ length rows.now) × (c.count ≤ 256) × (c.written < cap) }
    ensures { ((f p : List ℕ) → DidMark s.table.0 (steps_out (job_by job.entry) (chunk s.l.0 s.i s.table.0 (take c.count rows.now) ∷ [])) c.mark result.mark c.counts result.counts
        doc.old doc.new segments.old segments.new f f p p) × (result.written ≡ c.written + 1) }
{
    let chunk = &rows[..c.count as usize];
    let counts = write_chunk(job, chunk, doc, segments, c.counts, s);
    Repeated {
        mark: c.mark,
        counts,
        written: c.written + 1,
    }
}

// Row r joins the chunk.
fn extend(
    nest: Nest,
    rows: &mut [u32],
    findings: &mut [u64],
    stops: &mut [u64],
    c: Chunk,
    s: Planned,
    w: Table,
    r: RowId,
) -> Chunk
    requires { Within c.counts × Of nest.job.at.bytes.now s × (r.0 < row_count (outline_by nest.job) s.table.0) × Holds w c rows.old }
    ensures { (d g : List ℕ) → length d ≤ cap → length g ≤ cap
        → Added (job_by nest.entry.job) s.l.0 s.i s.table.0 true r.0 c result rows.old rows.new d d g g findings.old findings.new stops.old stops.new }
{
    let n = add_row(nest, rows, findings, stops, c.mark, c.counts, s, c.count, r);
    Chunk {
        mark: n.mark,
        counts: n.counts,
        written: c.written,
        head: c.head,
        count: c.count + 1,
    }
}

// The chunk is written, and row r begins the next.
fn cut(
    nest: Nest,
    rows: &mut [u32],
    doc: &mut [u8],
    segments: &mut [u64],
    findings: &mut [u64],
    stops: &mut [u64],
    c: Chunk,
    s: Planned,
    w: Table,
    r: RowId,
) -> Chunk
    requires { Within c.counts × Of nest.job.at.bytes.now s × (r.0 < row_count (outline_by nest.job) s.table.0) × Holds w c rows.old × (c.written < cap) }
    ensures { Added (job_by nest.entry.job) s.l.0 s.i s.table.0 false r.0 c result rows.old rows.new doc.old doc.new segments.old segments.new findings.old findings.new stops.old stops.new }
{
    let closed = close(nest.job, rows, doc, segments, c, s);
    let n = add_row(
        nest,
        rows,
        findings,
        stops,
        closed.mark,
        closed.counts,
        s,
        0,
        r,
    );
    Chunk {
        mark: n.mark,
        counts: n.counts,
        written: closed.written,
        head: r,
        count: 1,
    }
}

// Row r comes to the chunk: it joins, or begins the next.
fn add_next(
    nest: Nest,
    rows: &mut [u32],
    doc: &mut [u8],
    segments: &mut [u64],
    findings: &mut [u64],
    stops: &mut [u64],
    c: Chunk,
    s: Planned,
    w: Table,
    r: RowId,
) -> Chunk
    requires { Within c.counts × (s.l.0 < 32) × (r.0 < row_count (outline_by nest.job) s.table.0) × Holds w c rows.old × (c.written < cap) × Of nest.job.at.bytes.now s }
    ensures { Added (job_by nest.entry.job) s.l.0 s.i s.table.0 (ltb c.count w.room && (outline_by nest.entry.job).same_chunk s.l.0 s.i c.head.0 r.0) r.0 c result rows.old rows.new doc.old doc.new segments.old segments.new findings.old findings.new stops.old stops.new }
{
    let fits = joins(nest.job, s.l, s.i, c.head, c.count, w.room, r);
    if fits {
        return extend(nest, rows, findings, stops, c, s, w, r);
    }
    cut(nest, rows, doc, segments, findings, stops, c, s, w, r)
}

// The rows from `from` on come to the chunk `first`, and the last chunk is written.
fn add_rows(
    nest: Nest,
    rows: &mut [u32],
    doc: &mut [u8],
    segments: &mut [u64],
    findings: &mut [u64],
    stops: &mut [u64],
    first: Chunk,
    s: Planned,
    w: Table,
    p: RowId,
    from: usize,
) -> Repeated
    requires { Within first.counts × (s.l.0 < 32) × (p.0 < 4096) × TableIs nest.job.at.bytes.now w × Holds w first rows.old
        × (first.written + segments_in (left nest.job.at.bytes.now nest.array.now s.l.0 s.i s.table.0 w p.0 first rows.old from) < cap) × Of nest.job.at.bytes.now s × (s.table ≡ w.t) }
    ensures { DidMark s.table.0 (steps_out (job_by nest.entry.job) (left nest.entry.job.at.bytes.now nest.entry.array.now s.l.0 s.i s.table.0 w p.0 first rows.old from)) first.mark result.mark first.counts result.counts
        doc.old doc.new segments.old segments.new findings.old findings.new stops.old stops.new
        × (result.written ≡ first.written + segments_in (left nest.entry.job.at.bytes.now nest.entry.array.now s.l.0 s.i s.table.0 w p.0 first rows.old from)) }
{
    let all = TableRows {
        array: nest.array,
        base: w.base,
        rows: w.rows,
    };
    let mut c = first;
    let mut k = from;
    // each row tells where the next is looked for
    while let Some(r) = all.next_hooked(k, s.l, p) {
        c = add_next(nest, rows, doc, segments, findings, stops, c, s, w, r);
        k = r.0 as usize + 1;
    }
    close(nest.job, rows, doc, segments, c, s)
}

// The planned segment is read once; the first row of all begins a chunk, and the rows behind it come to it.
fn begin(
    nest: Nest,
    rows: &mut [u32],
    doc: &mut [u8],
    segments: &mut [u64],
    findings: &mut [u64],
    stops: &mut [u64],
    m: Mark,
    c: Counts,
    l: LoopId,
    i: u32,
    w: Table,
    p: RowId,
    r: RowId,
) -> Repeated
    requires { Within c × (l.0 < 32) × (p.0 < 4096) × TableIs nest.job.at.bytes.now w × (r.0 < w.rows) × (256 ≤ length rows.old)
        × (segments_in (going ((outline_by nest.job).same_chunk l.0 i) w.room l.0 i w.t.0 r.0 (r.0 ∷ []) 1 (keep (hooked_at nest.array.now w.base l.0 p.0) (up_to (r.0 + 1) w.rows))) < cap) }
    ensures { Repeats (job_by nest.entry.job) ((stop l.0 w.t.0 r.0 ∷ fill l.0 i w.t.0 0 r.0 ∷ []) ++ going ((outline_by nest.entry.job).same_chunk l.0 i) w.room l.0 i w.t.0 r.0 (r.0 ∷ []) 1 (keep (hooked_at nest.entry.array.now w.base l.0 p.0) (up_to (r.0 + 1) w.rows))) w.t.0 m c result
        doc.old doc.new segments.old segments.new findings.old findings.new stops.old stops.new }
{
    let s = planned_segment(nest.job, l, i, w.t);
    let n = add_row(nest, rows, findings, stops, m, c, s, 0, r);
    let first = Chunk {
        mark: n.mark,
        counts: n.counts,
        written: 0,
        head: r,
        count: 1,
    };
    let from = r.0 as usize + 1;
    add_rows(
        nest, rows, doc, segments, findings, stops, first, s, w, p, from,
    )
}

// The same for a table of repeat segments that data has, the rows of a chunk standing in `rows`.
fn write_hooked(
    nest: Nest,
    rows: &mut [u32],
    doc: &mut [u8],
    segments: &mut [u64],
    findings: &mut [u64],
    stops: &mut [u64],
    m: Mark,
    c: Counts,
    l: LoopId,
    i: u32,
    t: TableId,
    p: RowId,
) -> Repeated
    requires { Within c × (l.0 < 32) × (p.0 < 4096) × (256 ≤ length rows.old) × (repeated (outline_by nest.job) t.0 ≡ true)
        × (segments_in (repeat_steps (outline_by nest.job) l.0 i t.0 p.0) < cap) }
    ensures { Repeats (job_by nest.entry.job) (repeat_steps (outline_by nest.entry.job) l.0 i t.0 p.0) t.0 m c result
        doc.old doc.new segments.old segments.new findings.old findings.new stops.old stops.new }
{
    let part = part_of(nest, t, p);
    let w = part.table;
    let all = TableRows {
        array: nest.array,
        base: w.base,
        rows: w.rows,
    };
    let f = all.next_hooked(part.from, l, p);
    match f {
        None => Repeated {
            mark: m,
            counts: c,
            written: 0,
        },
        Some(r) => begin(
            nest, rows, doc, segments, findings, stops, m, c, l, i, w, p, r,
        ),
    }
}

// The repeat segments of table t in the instance of loop l that row p opens: the rows that go into it, cut into chunks.
pub fn write_repeats(
    nest: Nest,
    doc: &mut [u8],
    segments: &mut [u64],
    findings: &mut [u64],
    stops: &mut [u64],
    m: Mark,
    c: Counts,
    l: LoopId,
    i: u32,
    t: TableId,
    p: RowId,
) -> Repeated
    requires { Within c × (l.0 < 32) × (p.0 < 4096)
        × (segments_in (repeat_steps (outline_by nest.job) l.0 i t.0 p.0) < cap) }
    ensures { Repeats (job_by nest.entry.job) (repeat_steps (outline_by nest.entry.job) l.0 i t.0 p.0) t.0 m c result
        doc.old doc.new segments.old segments.new findings.old findings.new stops.old stops.new }
{
    let again = spec::tables::repeats(nest.job.at, t);
    if again {
        // no more than 255 rows go into a segment
        let mut rows: [u32; 256] = [0; 256];
        return write_hooked(
            nest, &mut rows, doc, segments, findings, stops, m, c, l, i, t, p,
        );
    }
    Repeated {
        mark: m,
        counts: c,
        written: 0,
    }
}
