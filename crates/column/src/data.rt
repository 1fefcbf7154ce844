// A table's data: optional columns, keys and references.
ghost use Rattle.std.specs.Prelude.{◌≡◌, List, ℕ, ◌≤◌, length, Option, Some};
ghost use Rattle.codec.specs.Skip.{skip, Is};
ghost use Rattle.codec.specs.Field.{Stands};
ghost use Rattle.codec.specs.Forms.{opt_c};
ghost use Rattle.format.specs.Data.{Column, column_c};
ghost use Rattle.column.specs.Cell.{Cell as CellOf, opt_get, cell_in, key_in, ref_column, reference_in, or_null, is_null, int64_of};
ghost use Rattle.column.specs.Answers.{Reads, cell_at, OptColumnAt};
ghost use Rattle.column.specs.Parts.{refs_c};

use crate::Cell;
use crate::get::{after_column, get, head, int_cell};

// The answer of the optional column that stands at a place, as a `segment` column keeps it.
pub fn opt_get(job: &[u8], at: usize, row: u32) -> Cell
    requires { Stands (opt_c column_c) job.now at }
    ensures { (e : ℕ) (o : Option Column) → e ≤ length job.now → Is (opt_c column_c) job.now e at o → Reads job.now result (opt_get o row) }
{
    if job[at] == 0 {
        return Cell::None;
    }
    get(job, at + 1, row)
}

// The place behind the optional column that stands at a place.
pub fn after_opt(job: &[u8], at: usize) -> usize
    requires { Stands (opt_c column_c) job.now at }
    ensures { (e : ℕ) (o : Option Column) → Is (opt_c column_c) job.now e at o → result ≡ skip (opt_c column_c) job.now at e }
{
    if job[at] == 0 {
        return at + 1;
    }
    after_column(job, at + 1)
}

// No answer reads as null.
pub fn or_null(cell: Cell) -> Cell
    ensures { (b : List ℕ) (x : Option CellOf) → Reads b cell x → Reads b result (Some (or_null x)) }
{
    match cell {
        Cell::None => Cell::Null,
        _ => cell,
    }
}

// Whether a cell is null; no answer counts as one.
pub fn is_null(cell: Cell) -> bool
    ensures { (b : List ℕ) → result ≡ is_null (or_null (cell_at b cell)) }
{
    matches!(cell, Cell::None | Cell::Null)
}

// The number of an Int64 cell.
pub fn int_of(cell: Cell) -> Option<u64>
    ensures { (b : List ℕ) → result ≡ int64_of (cell_at b cell) }
{
    match cell {
        Cell::Int(x) => Some(x),
        _ => None,
    }
}

// The number of the optional column that stands at a place: only an Int64 column has one.
pub fn opt_int(job: &[u8], at: usize, row: u32) -> Option<u64>
    requires { Stands (opt_c column_c) job.now at }
    ensures { (e : ℕ) (o : Option Column) → e ≤ length job.now → Is (opt_c column_c) job.now e at o → result ≡ int64_of (opt_get o row) }
{
    if job[at] == 0 {
        return None;
    }
    let (kind, n) = head(job, at + 1);
    if kind != 1 {
        return None;
    }
    int_of(int_cell(job, at + 1, n, row))
}

// The cell of the optional column that stands at a place.
pub fn cell(job: &[u8], at: usize, row: u32) -> Cell
    requires { Stands (opt_c column_c) job.now at }
    ensures { (e : ℕ) (o : Option Column) → e ≤ length job.now → Is (opt_c column_c) job.now e at o → Reads job.now result (Some (cell_in o row)) }
{
    or_null(opt_get(job, at, row))
}

// The key of a row, by the row column that stands at a place.
pub fn key(job: &[u8], at: usize, row: u32) -> u64
    requires { Stands (opt_c column_c) job.now at }
    ensures { (e : ℕ) (o : Option Column) → e ≤ length job.now → Is (opt_c column_c) job.now e at o → result ≡ key_in o row }
{
    opt_int(job, at, row).unwrap_or(row as u64)
}

// The place of the first column of references to a table, in the list that stands at a place.
pub fn find_ref(job: &[u8], at: usize, above: u32) -> Option<usize>
    requires { Stands refs_c job.now at }
    ensures { (e : ℕ) (refs : List (ℕ × Option Column)) → e ≤ length job.now → Is refs_c job.now e at refs → OptColumnAt job.now e result (ref_column refs above) }
{
    let n = codec::num_in(job, at);
    let mut p = at + 4;
    for _i in 0..n {
        let table = codec::num_in(job, p);
        let column = p + 4;
        if table == above as usize {
            return Some(column);
        }
        p = after_opt(job, column);
    }
    None
}

// The reference of a row to a table, by the list of references that stands at a place.
pub fn reference(job: &[u8], at: usize, above: u32, row: u32) -> Option<u64>
    requires { Stands refs_c job.now at }
    ensures { (e : ℕ) (refs : List (ℕ × Option Column)) → e ≤ length job.now → Is refs_c job.now e at refs → result ≡ reference_in refs above row }
{
    let p = find_ref(job, at, above)?;
    opt_int(job, p, row)
}
