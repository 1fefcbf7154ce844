// Duplicate keys: each row whose key an earlier row of its table has.
ghost use Rattle.std.specs.Prelude.{◌≡◌, true, length};
ghost use Rattle.lent.specs.Window.{Noted};
ghost use Rattle.nest.specs.Lists.{each};
ghost use Rattle.nest.specs.UpTo.{up_to};
ghost use Rattle.nest.specs.Outline.{row_count};
ghost use Rattle.nest.specs.Nest.{has_keys};
ghost use Rattle.nest.specs.NestFindings.{duplicate_at, duplicates};
ghost use Rattle.nest.specs.Keys.{Keyed};
ghost use Rattle.nest.specs.Ready.{words};
ghost use Rattle.nest.specs.Job.{outline_by};

use crate::Job;
use crate::keys::{Keys, first_with, may_repeat};
use crate::noted::each_below;
use spec::ids::{RowId, TableId};

// The finding of row r of a table with keys, if an earlier row has its key.
pub fn duplicate_at(job: Job, findings: &mut [u64], at: usize, t: TableId, r: RowId) -> usize
    requires { has_keys (outline_by job) t.0 ≡ true }
    ensures { Noted findings.old at (words (duplicate_at (outline_by job.entry) t.0 r.0)) result findings.new }
{
    let key = tables::data::key(job.at, t, r);
    let Some(f) = first_with(job, t, key) else {
        return lent::more(at, 0);
    };
    if r <= f {
        return lent::more(at, 0);
    }
    lent::note_words(
        findings,
        at,
        [0, t.0 as u64, r.0 as u64, key, f.0 as u64, 0, 0, 0, 0, 0],
        10,
    )
}

// The duplicate keys of table t.
pub fn table_duplicates(
    job: Job,
    keys: [Keys; 16],
    findings: &mut [u64],
    at: usize,
    t: TableId,
) -> usize
    requires { Keyed (outline_by job) keys }
    ensures { Noted findings.old at (words (duplicates (outline_by job.entry) t.0)) result findings.new }
{
    if !may_repeat(keys, t) {
        return lent::more(at, 0);
    }
    let n = tables::data::row_count(job.at, t);
    each_below(
        n,
        findings,
        at,
        |d, next, r| duplicate_at(job, d, next, t, RowId(r)),
    )
}

// The duplicate keys of all tables of data, table by table.
pub fn all_duplicates(job: Job, keys: [Keys; 16], findings: &mut [u64], at: usize) -> usize
    requires { Keyed (outline_by job) keys }
    ensures { Noted findings.old at (words (each (duplicates (outline_by job.entry)) (up_to 0 (length (outline_by job.entry).row_counts)))) result findings.new }
{
    let count = tables::data::data_count(job.at);
    each_below(count, findings, at, |d, next, t| {
        table_duplicates(job, keys, d, next, TableId(t))
    })
}
