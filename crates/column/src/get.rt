// The cell of a row in the column that stands at a place.
ghost use Rattle.std.specs.Prelude.{◌≡◌, List, ℕ, ◌≤◌, ◌<◌, length};
ghost use Rattle.codec.specs.Codec.{le};
ghost use Rattle.codec.specs.Skip.{skip, Is};
ghost use Rattle.codec.specs.Field.{Stands};
ghost use Rattle.codec.specs.Forms.{bytes_c};
ghost use Rattle.format.specs.Data.{Values, values_c, Column, column_c};
ghost use Rattle.column.specs.Cell.{between, get as getOf};
ghost use Rattle.column.specs.Answers.{Reads};
ghost use Rattle.column.specs.Parts.{ColumnOf};

use crate::Cell;
use crate::bitmap::bit_at;

// The kind of the column that stands at a place, and how many numbers its first list has.
pub fn head(job: &[u8], at: usize) -> (u8, usize)
    requires { Stands column_c job.now at }
    ensures { ColumnOf job.now at result.0 result.1 }
{
    (job[at], codec::num_in(job, at + 1))
}

// The bytes from one offset up to another of the n bytes whose count stands at a place.
pub fn stretch(at: usize, n: usize, from: u32, to: u32) -> Cell
    requires { at < 9223372036854775808 }
    ensures { (b : List ℕ) (e : ℕ) (bytes : List ℕ) → n ≡ le 4 b at → e ≤ length b → Is bytes_c b e at bytes → Reads b result (between bytes from to) }
{
    if 2147483648 <= to {
        return Cell::None;
    }
    if to < from {
        return Cell::None;
    }
    if n < to as usize {
        return Cell::None;
    }
    Cell::Bytes(at + 4 + from as usize, (to - from) as usize)
}

// The cell of a row in the column of bytes, with n offsets, that stands at a place.
pub fn bytes_cell(job: &[u8], at: usize, n: usize, row: u32) -> Cell
    requires { ColumnOf job.now at 0 n }
    ensures { (e : ℕ) (v : Column) → e ≤ length job.now → Is column_c job.now e at v → Reads job.now result (getOf v row) }
{
    let data = at + 5 + n * 4;
    let m = codec::num_in(job, data);
    let bit = bit_at(job, data + m + 4, row);
    match bit {
        None => Cell::None,
        Some(false) => Cell::Null,
        Some(true) => {
            let next = at + 9 + row as usize * 4;
            if data <= next {
                return Cell::None;
            }
            let from = codec::num_in(job, next - 4);
            let to = codec::num_in(job, next);
            stretch(data, m, from as u32, to as u32)
        }
    }
}

// A column's kind is a number here, as it stands in the job: 0 bytes, 1 and 2 numbers of 64 and 128 bits, 3 days, 4 seconds.

// The cell of a row in the column of n numbers of 64 bits that stands at a place.
pub fn int_cell(job: &[u8], at: usize, n: usize, row: u32) -> Cell
    requires { ColumnOf job.now at 1 n }
    ensures { (e : ℕ) (v : Column) → e ≤ length job.now → Is column_c job.now e at v → Reads job.now result (getOf v row) }
{
    let bit = bit_at(job, at + 5 + n * 8 + 1, row);
    match bit {
        None => Cell::None,
        Some(false) => Cell::Null,
        Some(true) => {
            if n <= row as usize {
                return Cell::None;
            }
            Cell::Int(codec::long_in(job, at + 5 + row as usize * 8))
        }
    }
}

// The cell of a row in the column of n numbers of 128 bits that stands at a place.
pub fn wide_cell(job: &[u8], at: usize, n: usize, row: u32) -> Cell
    requires { ColumnOf job.now at 2 n }
    ensures { (e : ℕ) (v : Column) → e ≤ length job.now → Is column_c job.now e at v → Reads job.now result (getOf v row) }
{
    let bit = bit_at(job, at + 5 + n * 16 + 1, row);
    match bit {
        None => Cell::None,
        Some(false) => Cell::Null,
        Some(true) => {
            if n <= row as usize {
                return Cell::None;
            }
            let low = codec::long_in(job, at + 5 + row as usize * 16);
            let high = codec::long_in(job, at + 5 + row as usize * 16 + 8);
            Cell::Wide(low, high, job[at + 5 + n * 16])
        }
    }
}

// The cell of a row in the column of n days, which are of kind 3, or seconds that stands at a place.
pub fn short_cell(job: &[u8], at: usize, kind: u8, n: usize, row: u32) -> Cell
    requires of { ColumnOf job.now at kind n }
    requires short { 2 < kind }
    ensures { (e : ℕ) (v : Column) → e ≤ length job.now → Is column_c job.now e at v → Reads job.now result (getOf v row) }
{
    let bit = bit_at(job, at + 5 + n * 4, row);
    match bit {
        None => Cell::None,
        Some(false) => Cell::Null,
        Some(true) => {
            if n <= row as usize {
                return Cell::None;
            }
            let x = codec::num_in(job, at + 5 + row as usize * 4) as u32;
            if kind == 3 {
                return Cell::Days(x);
            }
            Cell::Seconds(x)
        }
    }
}

// The cell of a row in the column that stands at a place. Asked for in this order, the compiler tests for bytes first.
pub fn get(job: &[u8], at: usize, row: u32) -> Cell
    requires { Stands column_c job.now at }
    ensures { (e : ℕ) (v : Column) → e ≤ length job.now → Is column_c job.now e at v → Reads job.now result (getOf v row) }
{
    let (kind, n) = head(job, at);
    if kind == 2 {
        return wide_cell(job, at, n, row);
    }
    if kind == 1 {
        return int_cell(job, at, n, row);
    }
    if kind == 0 {
        return bytes_cell(job, at, n, row);
    }
    short_cell(job, at, kind, n, row)
}

// The place behind the values of the column that stands at a place. It asks for the whole column, where its values would do, since `head` does.
pub fn after_values(job: &[u8], at: usize) -> usize
    requires { Stands column_c job.now at }
    ensures { (e : ℕ) (v : Values) → Is values_c job.now e at v → result ≡ skip values_c job.now at e }
{
    let (kind, n) = head(job, at);
    if kind == 0 {
        let m = codec::num_in(job, at + 5 + n * 4);
        return at + 5 + n * 4 + 4 + m;
    }
    if kind == 1 {
        return at + 5 + n * 8 + 1;
    }
    if kind == 2 {
        return at + 5 + n * 16 + 1;
    }
    at + 5 + n * 4
}

// The place behind the column that stands at a place.
pub fn after_column(job: &[u8], at: usize) -> usize
    requires { Stands column_c job.now at }
    ensures { (e : ℕ) (v : Column) → Is column_c job.now e at v → result ≡ skip column_c job.now at e }
{
    let p = after_values(job, at);
    let n = codec::num_in(job, p);
    p + 4 + n + 4
}
