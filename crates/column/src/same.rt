// Whether two cells are equal.
ghost use Rattle.std.specs.Prelude.{ℕ, ◌≡◌, ◌+◌, ◌*◌, ◌≤◌, ◌<◌, List, length, take, drop, leb, None, Some};
ghost use Rattle.column.specs.Cell.{Cell as CellOf, same_bytes, same_answer};
ghost use Rattle.column.specs.Answers.{Compares, cell_at};

use crate::Cell;

// Whether two numbers of 128 bits, as halves and scale, are equal.
pub fn same_wide(low: u64, high: u64, scale: u8, x: u64, y: u64, z: u8) -> bool
    ensures { result ≡ same_answer (Some (CellOf.decimal (low + 18446744073709551616 * high) scale)) (Some (CellOf.decimal (x + 18446744073709551616 * y) z)) }
{
    low == x && high == y && scale == z
}

// Whether a cell is the number of 128 bits with these halves and this scale; a cell of another kind isn't.
pub fn same_wide_cell(low: u64, high: u64, scale: u8, b: Cell) -> bool
    ensures { (l : List ℕ) → result ≡ same_answer (Some (CellOf.decimal (low + 18446744073709551616 * high) scale)) (cell_at l b) }
{
    match b {
        Cell::Wide(x, y, z) => same_wide(low, high, scale, x, y, z),
        _ => false,
    }
}

// Whether two stretches of the job, (s, n) and (t, m), hold the same bytes.
pub fn same_bytes(job: &[u8], s: usize, n: usize, t: usize, m: usize) -> bool
    requires { (s + n ≤ length job.now) × (t + m ≤ length job.now) }
    ensures { result ≡ same_bytes (take n (drop s job.now)) (take m (drop t job.now)) }
{
    &job[s..s + n] == &job[t..t + m]
}

// Whether a stretch is within the job.
pub fn inside(job: &[u8], s: usize, n: usize) -> bool
    ensures { result ≡ leb (s + n) (length job.now) }
{
    s <= job.len() && n <= job.len() - s
}

// Whether two answers are equal; None and Null differ.
pub fn same(job: &[u8], a: Cell, b: Cell) -> bool
    ensures { Compares job.now a b result }
{
    match (a, b) {
        (Cell::None, Cell::None) => true,
        (Cell::Null, Cell::Null) => true,
        (Cell::Bytes(s, n), Cell::Bytes(t, m)) => {
            inside(job, s, n) && inside(job, t, m) && same_bytes(job, s, n, t, m)
        }
        (Cell::Int(x), Cell::Int(y)) => x == y,
        (Cell::Wide(x, v, i), Cell::Wide(y, w, j)) => same_wide(x, v, i, y, w, j),
        (Cell::Days(x), Cell::Days(y)) => x == y,
        (Cell::Seconds(x), Cell::Seconds(y)) => x == y,
        _ => false,
    }
}
