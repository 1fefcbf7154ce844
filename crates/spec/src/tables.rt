// The tables of the spec. A table that is not there has no loops, no columns, no parent and no ancestors.
ghost use Rattle.std.specs.Prelude.{◌<◌, ◌≡◌, get_or, length};
ghost use Rattle.format.specs.Sections.{job_of};
ghost use Rattle.format.specs.Ask.{table_of, step_of};
ghost use Rattle.spec.specs.Index.{SpecIndexed, row_place};

use crate::Indexed;
use crate::ids::{LoopId, TableId};
use crate::read::{flag_at, item_at, number_at, row_place, step_at};

// A reader for each field: each promises a field of its own, in the type of that field.
pub fn table_count(job: Indexed) -> u32
    requires { SpecIndexed job.bytes.now job.index.now }
    ensures { result ≡ length (job_of job.entry.bytes.now).spec.tables }
{
    let p = codec::place(job.index, 2);
    codec::num_in(job.bytes, p) as u32
}

// Where field f of a table stands, if the table is there.
pub fn table_field(job: Indexed, t: TableId, f: u32) -> Option<usize>
    requires { SpecIndexed job.bytes.now job.index.now }
    ensures { result ≡ row_place job.entry.bytes.now job.entry.index.now 2 232 6 t.0 f }
{
    row_place(job, 2, 232, 6, t.0, f)
}

pub fn table_loop_count(job: Indexed, t: TableId) -> u32
    requires { SpecIndexed job.bytes.now job.index.now }
    ensures { result ≡ length (table_of (job_of job.entry.bytes.now) t.0).loops }
{
    let Some(p) = table_field(job, t, 0) else {
        return 0;
    };
    codec::num_in(job.bytes, p) as u32
}

pub fn table_loop(job: Indexed, t: TableId, k: u32) -> LoopId
    requires { SpecIndexed job.bytes.now job.index.now }
    ensures { result.0 ≡ get_or (table_of (job_of job.entry.bytes.now) t.0).loops k 0 }
{
    let Some(p) = table_field(job, t, 0) else {
        return LoopId(0);
    };
    LoopId(item_at(job.bytes, p, k))
}

// Whether the table is one of repeat segments.
pub fn repeats(job: Indexed, t: TableId) -> bool
    requires { SpecIndexed job.bytes.now job.index.now }
    ensures { result ≡ (table_of (job_of job.entry.bytes.now) t.0).segment }
{
    let Some(p) = table_field(job, t, 1) else {
        return false;
    };
    flag_at(job.bytes, p)
}

pub fn step(job: Indexed, t: TableId) -> u32
    requires { SpecIndexed job.bytes.now job.index.now }
    ensures { result ≡ step_of (job_of job.entry.bytes.now) t.0 }
{
    let Some(p) = table_field(job, t, 2) else {
        return 0;
    };
    step_at(job.bytes, p)
}

pub fn column_count(job: Indexed, t: TableId) -> u32
    requires { SpecIndexed job.bytes.now job.index.now }
    ensures { result ≡ (table_of (job_of job.entry.bytes.now) t.0).columns }
{
    let Some(p) = table_field(job, t, 3) else {
        return 0;
    };
    codec::num_in(job.bytes, p) as u32
}

pub fn table_parent(job: Indexed, t: TableId) -> Option<u32>
    requires { SpecIndexed job.bytes.now job.index.now }
    ensures { result ≡ (table_of (job_of job.entry.bytes.now) t.0).parent }
{
    let p = table_field(job, t, 4)?;
    number_at(job.bytes, p)
}

pub fn ancestor_count(job: Indexed, t: TableId) -> u32
    requires { SpecIndexed job.bytes.now job.index.now }
    ensures { result ≡ length (table_of (job_of job.entry.bytes.now) t.0).ancestors }
{
    let Some(p) = table_field(job, t, 5) else {
        return 0;
    };
    codec::num_in(job.bytes, p) as u32
}

// The number of ancestor k, which may be no table's.
pub fn ancestor(job: Indexed, t: TableId, k: u32) -> u32
    requires { SpecIndexed job.bytes.now job.index.now }
    ensures { result ≡ get_or (table_of (job_of job.entry.bytes.now) t.0).ancestors k 0 }
{
    let Some(p) = table_field(job, t, 5) else {
        return 0;
    };
    item_at(job.bytes, p, k)
}
