// Nest's numbers of all rows.
ghost use Rattle.std.specs.Prelude.{◌≡◌, ◌≤◌, ◌*◌, length};
ghost use Rattle.std.proofs.lemmas.List.Edits.{sets};
ghost use Rattle.nest.specs.Nest.{table_array, nest_array};
ghost use Rattle.nest.specs.Keys.{Keyed, Deep};
ghost use Rattle.format.specs.Refusal.{rows_of_all};
ghost use Rattle.tables.specs.Parts.{rows_before};
ghost use Rattle.nest.specs.Job.{outline_by, job_by};

use crate::hang::{all_depths, line_of, place_of};
use crate::keys::{Keys, all_keys};
use crate::{Job, put_record};
use spec::ids::{RowId, TableId};

// The numbers of the rows of table t, three a row.
pub fn nest_table(job: Job, nest: &mut [u32], keys: [Keys; 16], depths: [u8; 32], t: TableId)
    requires { Keyed (outline_by job) keys × Deep (outline_by job) depths × (rows_of_all (job_by job).tables * 3 ≤ length nest.old) }
    ensures { nest.new ≡ sets nest.old (rows_before (job_by job.entry).tables t.0 * 3) (table_array (outline_by job.entry) t.0) }
{
    let first = tables::data::first_row(job.at, t);
    let n = tables::data::row_count(job.at, t);
    let line = line_of(job, depths, t);
    let mut near: u32 = 0;
    for r in 0..n {
        let p = place_of(job, keys, depths, line, t, RowId(r), near);
        put_record(nest, first as usize + r as usize, p.above, p.l, p.table);
        near = p.above;
    }
}

// The numbers of the rows of all tables of data, one table after the other.
pub fn nest_rows(job: Job, nest: &mut [u32])
    requires { rows_of_all (job_by job).tables * 3 ≤ length nest.old }
    ensures { nest.new ≡ sets nest.old 0 (nest_array (outline_by job.entry)) }
{
    let keys = all_keys(job);
    let depths = all_depths(job);
    let count = tables::data::data_count(job.at);
    for t in 0..count {
        nest_table(job, nest, keys, depths, TableId(t));
    }
}
