// What is found of a row: contradictions with the row that it hangs on, or that it hangs on none.
ghost use Rattle.std.specs.Prelude.{◌≡◌, true, false, ◌<◌, length};
ghost use Rattle.lent.specs.Window.{Noted};
ghost use Rattle.tables.specs.Parts.{rows_before};
ghost use Rattle.nest.specs.Outline.{row_count, repeated};
ghost use Rattle.nest.specs.Nest.{row_of};
ghost use Rattle.nest.specs.Lists.{each};
ghost use Rattle.nest.specs.UpTo.{up_to};
ghost use Rattle.nest.specs.NestFindings.{contradiction_at, contradictions, missing_at, row_findings, table_findings};
ghost use Rattle.nest.specs.Keys.{Deep};
ghost use Rattle.nest.specs.Found.{ArrayIs};
ghost use Rattle.nest.specs.Ready.{words};
ghost use Rattle.nest.specs.Job.{outline_by, job_by};

use crate::hang::{all_depths, claim};
use crate::noted::each_below;
use crate::{Job, TableRows};
use spec::ids::{RowId, TableId};

// The finding of ancestor a, if row r of t and the row p of u that it hangs on refer to different rows of it.
pub fn contradiction_at(
    job: Job,
    findings: &mut [u64],
    at: usize,
    t: TableId,
    r: RowId,
    u: TableId,
    p: RowId,
    a: u32,
) -> usize
    ensures { Noted findings.old at (words (contradiction_at (outline_by job.entry) t.0 r.0 (row_of u.0 p.0) a)) result findings.new }
{
    let Some(v) = tables::data::reference(job.at, t, a, r) else {
        return lent::more(at, 0);
    };
    let Some(w) = tables::data::reference(job.at, u, a, p) else {
        return lent::more(at, 0);
    };
    if v == w {
        return lent::more(at, 0);
    }
    lent::note_words(
        findings,
        at,
        [
            2, t.0 as u64, r.0 as u64, a as u64, v, u.0 as u64, p.0 as u64, w, 0, 0,
        ],
        10,
    )
}

// The contradictions of row r of t with the row p of u that it hangs on, over the ancestors of u.
pub fn contradictions(
    job: Job,
    findings: &mut [u64],
    at: usize,
    t: TableId,
    r: RowId,
    u: TableId,
    p: RowId,
) -> usize
    ensures { Noted findings.old at (words (contradictions (outline_by job.entry) t.0 r.0 (row_of u.0 p.0))) result findings.new }
{
    let count = spec::tables::ancestor_count(job.at, u);
    each_below(count, findings, at, |d, next, k| {
        contradiction_at(
            job,
            d,
            next,
            t,
            r,
            u,
            p,
            spec::tables::ancestor(job.at, u, k),
        )
    })
}

// The finding of a repeat row that hangs on none.
pub fn repeat_missing(
    job: Job,
    findings: &mut [u64],
    at: usize,
    depths: [u8; 32],
    t: TableId,
    r: RowId,
) -> usize
    requires { Deep (outline_by job) depths × (repeated (outline_by job) t.0 ≡ true) }
    ensures { Noted findings.old at (words (missing_at (outline_by job.entry) t.0 r.0)) result findings.new }
{
    match claim(job, depths, t, r) {
        Ok(k) => lent::note_words(
            findings,
            at,
            [
                1,
                t.0 as u64,
                r.0 as u64,
                k.table.0 as u64,
                1,
                k.value,
                0,
                0,
                0,
                0,
            ],
            10,
        ),
        Err(last) => lent::note_words(
            findings,
            at,
            [1, t.0 as u64, r.0 as u64, last.0 as u64, 0, 0, 0, 0, 0, 0],
            10,
        ),
    }
}

// The finding of a row of another table that hangs on none; a table without parent has none.
pub fn parent_missing(job: Job, findings: &mut [u64], at: usize, t: TableId, r: RowId) -> usize
    requires { repeated (outline_by job) t.0 ≡ false }
    ensures { Noted findings.old at (words (missing_at (outline_by job.entry) t.0 r.0)) result findings.new }
{
    let Some(u) = spec::tables::table_parent(job.at, t) else {
        return lent::more(at, 0);
    };
    match tables::data::reference(job.at, t, u, r) {
        Some(v) => lent::note_words(
            findings,
            at,
            [1, t.0 as u64, r.0 as u64, u as u64, 1, v, 0, 0, 0, 0],
            10,
        ),
        None => lent::note_words(
            findings,
            at,
            [1, t.0 as u64, r.0 as u64, u as u64, 0, 0, 0, 0, 0, 0],
            10,
        ),
    }
}

// The finding of a row that hangs on none.
pub fn missing(
    job: Job,
    findings: &mut [u64],
    at: usize,
    depths: [u8; 32],
    t: TableId,
    r: RowId,
) -> usize
    requires { Deep (outline_by job) depths }
    ensures { Noted findings.old at (words (missing_at (outline_by job.entry) t.0 r.0)) result findings.new }
{
    if spec::tables::repeats(job.at, t) {
        return repeat_missing(job, findings, at, depths, t, r);
    }
    parent_missing(job, findings, at, t, r)
}

// The findings of row r of t, by nest's numbers.
pub fn row_findings(
    job: Job,
    findings: &mut [u64],
    at: usize,
    depths: [u8; 32],
    t: TableId,
    all: TableRows,
    r: RowId,
) -> usize
    requires { ArrayIs (outline_by job) all.array.now × Deep (outline_by job) depths × (all.base ≡ rows_before (job_by job).tables t.0) × (all.rows ≡ row_count (outline_by job) t.0) × (r.0 < all.rows) }
    ensures { Noted findings.old at (words (row_findings (outline_by job.entry) t.0 r.0)) result findings.new }
{
    match all.row_above(r) {
        Some(p) => contradictions(job, findings, at, t, r, all.table_above(r), p),
        None => missing(job, findings, at, depths, t, r),
    }
}

// The findings of the rows of table t.
pub fn table_findings(
    job: Job,
    nest: &[u32],
    findings: &mut [u64],
    at: usize,
    depths: [u8; 32],
    t: TableId,
) -> usize
    requires { ArrayIs (outline_by job) nest.now × Deep (outline_by job) depths }
    ensures { Noted findings.old at (words (table_findings (outline_by job.entry) t.0)) result findings.new }
{
    let base = tables::data::first_row(job.at, t) as usize;
    let n = tables::data::row_count(job.at, t);
    let all = TableRows {
        array: nest,
        base,
        rows: n as usize,
    };
    each_below(n, findings, at, |d, next, r| {
        row_findings(job, d, next, depths, t, all, RowId(r))
    })
}

// The findings of the rows of the spec's tables, table by table.
pub fn all_findings(job: Job, nest: &[u32], findings: &mut [u64], at: usize) -> usize
    requires { ArrayIs (outline_by job) nest.now }
    ensures { Noted findings.old at (words (each (table_findings (outline_by job.entry)) (up_to 0 (length (outline_by job.entry).tables)))) result findings.new }
{
    let depths = all_depths(job);
    let count = spec::tables::table_count(job.at);
    each_below(count, findings, at, |d, next, t| {
        table_findings(job, nest, d, next, depths, TableId(t))
    })
}
