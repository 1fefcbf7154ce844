// What is asked of a job's data. A table that is not there has no rows and no columns.
ghost use Rattle.std.specs.Prelude.{◌≡◌, ◌<◌, length, Some};
ghost use Rattle.format.specs.Sections.{job_of};
ghost use Rattle.format.specs.Ask.{data_of};
ghost use Rattle.column.specs.Cell.{cell_of, segment_cell, key_of, reference_of};
ghost use Rattle.column.specs.Answers.{Reads};
ghost use Rattle.tables.specs.Parts.{TableAt, rows_before};
ghost use Rattle.tables.specs.Index.{TablesIndexed};

use column::Cell;
use column::data::after_opt;
use spec::Indexed;
use spec::ids::{RowId, TableId};
use spec::region::item_place;

// How many tables data has.
pub fn data_count(job: Indexed) -> u32
    requires { TablesIndexed job.bytes.now job.index.now }
    ensures { result ≡ length (job_of job.entry.bytes.now).tables }
{
    codec::place(job.index, 3202) as u32
}

// Where a table stands.
pub fn table_at(job: Indexed, t: TableId) -> Option<usize>
    requires { TablesIndexed job.bytes.now job.index.now }
    ensures { TableAt job.entry.bytes.now result (data_of (job_of job.entry.bytes.now) t.0) }
{
    let n = data_count(job);
    if n <= t.0 {
        return None;
    }
    Some(codec::place(job.index, 2625 + t.0 as usize))
}

pub fn row_count(job: Indexed, t: TableId) -> u32
    requires { TablesIndexed job.bytes.now job.index.now }
    ensures { result ≡ (data_of (job_of job.entry.bytes.now) t.0).rows }
{
    match table_at(job, t) {
        Some(p) => codec::num_in(job.bytes, p) as u32,
        None => 0,
    }
}

// How many rows stand in the tables before t: the number of its first row, the rows of all tables numbered through.
pub fn first_row(job: Indexed, t: TableId) -> u32
    requires { TablesIndexed job.bytes.now job.index.now }
    ensures { result ≡ rows_before (job_of job.entry.bytes.now).tables t.0 }
{
    let before = data_count(job).min(t.0);
    codec::place(job.index, 2657 + before as usize) as u32
}

// The cell of a row; no answer reads as null.
pub fn cell(job: Indexed, t: TableId, column: u32, row: RowId) -> Cell
    requires { TablesIndexed job.bytes.now job.index.now }
    ensures { Reads job.entry.bytes.now result (Some (cell_of (data_of (job_of job.entry.bytes.now) t.0) column row.0)) }
{
    let n = data_count(job);
    if n <= t.0 {
        return Cell::Null;
    }
    match item_place(job, 2674 + t.0 as usize * 33, column) {
        Some(p) => column::data::cell(job.bytes, p, row.0),
        None => Cell::Null,
    }
}

// The cell of the `segment` column, which keeps that there is no answer.
pub fn segment_cell(job: Indexed, t: TableId, row: RowId) -> Cell
    requires { TablesIndexed job.bytes.now job.index.now }
    ensures { Reads job.entry.bytes.now result (segment_cell (data_of (job_of job.entry.bytes.now) t.0) row.0) }
{
    match table_at(job, t) {
        Some(p) => column::data::opt_get(job.bytes, after_opt(job.bytes, p + 4), row.0),
        None => Cell::None,
    }
}

// The key of a row, by its 64 bits.
pub fn key(job: Indexed, t: TableId, row: RowId) -> u64
    requires { TablesIndexed job.bytes.now job.index.now }
    ensures { result ≡ key_of (data_of (job_of job.entry.bytes.now) t.0) row.0 }
{
    match table_at(job, t) {
        Some(p) => column::data::key(job.bytes, p + 4, row.0),
        None => row.0 as u64,
    }
}

// The reference of a row to a table above, by its 64 bits.
pub fn reference(job: Indexed, t: TableId, above: u32, row: RowId) -> Option<u64>
    requires { TablesIndexed job.bytes.now job.index.now }
    ensures { result ≡ reference_of (data_of (job_of job.entry.bytes.now) t.0) above row.0 }
{
    let n = data_count(job);
    if n <= t.0 {
        return None;
    }
    let p = codec::place(job.index, 3203 + t.0 as usize);
    column::data::reference(job.bytes, p, above, row.0)
}
