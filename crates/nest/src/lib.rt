// Where each row hangs. Loops, tables and rows have numbers of their own kinds, so that an index into one list can't serve another.
#![tactic(auto)]

ghost use Rattle.std.specs.Prelude.{◌≡◌, ◌+◌, ◌*◌, ◌≤◌, ◌<◌, [], ◌∷◌, length};
ghost use Rattle.std.proofs.lemmas.List.Edits.{sets};
ghost use Rattle.format.specs.Refusal.{rows_of_all};
ghost use Rattle.lent.specs.Window.{base, Noted};
ghost use Rattle.nest.specs.Found.{ArrayIs, row_above};
ghost use Rattle.nest.specs.Nest.{nest_array};
ghost use Rattle.nest.specs.NestFindings.{nest_findings};
ghost use Rattle.nest.specs.Ready.{words};
ghost use Rattle.nest.specs.Job.{outline_by, job_by};

use crate::duplicates::all_duplicates;
use crate::keys::all_keys;
use crate::report::all_findings;
use crate::rows::nest_rows;
pub use job::Job;
use spec::ids::{LoopId, RowId, TableId};
pub use table_rows::TableRows;

pub mod duplicates;
pub mod hang;
mod job;
pub mod keys;
pub mod laws;
mod noted;
pub mod order;
pub mod report;
pub mod rows;
pub mod seek;
mod table_rows;

// Nest's numbers, three a row, the rows of all tables numbered through; those of one table are `TableRows`.

// The three numbers of row n of all: the row above plus one, or 0; the anchor loop; the table that placed it.
pub fn put_record(nest: &mut [u32], n: usize, above: u32, l: LoopId, t: TableId)
    requires { n * 3 + 2 < length nest.old }
    ensures { nest.new ≡ sets nest.old (n * 3) (above ∷ l.0 ∷ t.0 ∷ []) }
{
    let i = n * 3;
    nest[i] = above;
    nest[i + 1] = l.0;
    nest[i + 2] = t.0;
}

// The row that row r of a table hangs on; of the row's numbers the first alone is asked to be there.
pub fn row_above(nest: &[u32], base: usize, r: RowId) -> Option<RowId>
    requires { (base + r.0) * 3 < length nest.now }
    ensures { result ≡ row_above nest.now base r.0 }
{
    let p = nest[(base + r.0 as usize) * 3];
    if p == 0 {
        return None;
    }
    Some(RowId(p - 1))
}

// What is found of the rows, stored from place `start` on: duplicate keys first, then row by row.
pub fn nest_findings(job: Job, nest: &[u32], findings: &mut [u64], start: usize) -> usize
    requires { ArrayIs (outline_by job) nest.now }
    ensures { Noted findings.old start (words (nest_findings (outline_by job.entry))) result findings.new }
{
    let keys = all_keys(job);
    let next = all_duplicates(job, keys, findings, start);
    all_findings(job, nest, findings, next)
}

// Where each row hangs, three numbers a row, and what is found of the rows.
pub fn nest(job: Job, nest: &mut [u32], findings: &mut [u64]) -> usize
    requires { rows_of_all (job_by job).tables * 3 ≤ length nest.old }
    ensures { (nest.new ≡ sets nest.old 0 (nest_array (outline_by job.entry))) × Noted findings.old base (words (nest_findings (outline_by job.entry))) result findings.new }
{
    nest_rows(job, nest);
    nest_findings(job, nest, findings, 4611686018427387904)
}
