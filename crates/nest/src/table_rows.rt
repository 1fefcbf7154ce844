// The rows of a table in nest's array, which has three numbers for each row of all tables.
ghost use Rattle.std.specs.Prelude.{◌+◌, ◌*◌, ◌≤◌, length};

use crate::seek::{first_row_where, halve};
use spec::ids::{LoopId, RowId, TableId};

// The first of them is row `base` of all; as many as `rows` are gone through.
#[derive(Clone, Copy)]
pub struct TableRows<'a> {
    pub array: &'a [u32],
    pub base: usize,
    pub rows: usize,
    pub ghost within: { (base + rows) * 3 ≤ length array.now },
}

// A method that reads row k asks that k is below `rows`. Numbers of rows above are read from the job, and asked to be below 4096.
impl<'a> TableRows<'a> {
    ghost use Rattle.std.specs.Prelude.{◌≡◌, ◌<◌, ◌^◌};
    ghost use Rattle.nest.specs.Lists.{keep, first};
    ghost use Rattle.nest.specs.UpTo.{up_to};
    ghost use Rattle.nest.specs.Found.{found_by, nest_at, row_above, held_at, hooked_at};
    ghost use Rattle.nest.specs.Rising.{Climbs, Parted};

    // The row that row k hangs on plus one, or 0, as the array has it.
    pub fn above(self, k: usize) -> u32
        requires { k < self.rows }
        ensures { result ≡ nest_at self.entry.array.now self.entry.base k 0 }
    {
        self.array[(self.base + k) * 3]
    }

    // The row that row r hangs on.
    pub fn row_above(self, r: RowId) -> Option<RowId>
        requires { r.0 < self.rows }
        ensures { result ≡ row_above self.entry.array.now self.entry.base r.0 }
    {
        crate::row_above(self.array, self.base, r)
    }

    // The table of that row.
    pub fn table_above(self, r: RowId) -> TableId
        requires { r.0 < self.rows }
        ensures { result.0 ≡ nest_at self.entry.array.now self.entry.base r.0 2 }
    {
        TableId(self.array[(self.base + r.0 as usize) * 3 + 2])
    }

    // Whether row k hangs on row p of the table's parent.
    pub fn held_at(self, k: usize, p: RowId) -> bool
        requires { (k < self.rows) × (p.0 < 4096) }
        ensures { result ≡ held_at self.entry.array.now self.entry.base p.0 k }
    {
        self.above(k) == p.0 + 1
    }

    // Whether row k of a repeat table goes into the instance of loop l that row p opens.
    pub fn hooked_at(self, k: usize, l: LoopId, p: RowId) -> bool
        requires { (k < self.rows) × (p.0 < 4096) }
        ensures { result ≡ hooked_at self.entry.array.now self.entry.base l.0 p.0 k }
    {
        self.held_at(k, p) && self.array[(self.base + k) * 3 + 1] == l.0
    }

    // The next of a repeat table's rows, from `from` on, that go into the instance of loop l that row p opens.
    pub fn next_hooked(self, from: usize, l: LoopId, p: RowId) -> Option<RowId>
        requires { (p.0 < 4096) × (self.rows < 2 ^ 32) }
        ensures { result ≡ found_by (first (keep (hooked_at self.entry.array.now self.entry.base l.0 p.0) (up_to from self.entry.rows))) }
    {
        first_row_where(from, self.rows, |k| self.hooked_at(k, l, p))
    }

    // Where the rows climb: the end of those from `from` on that hang on a row before the row `above` less one.
    pub fn first_at(self, from: usize, above: u32) -> usize
        requires { (from ≤ self.rows) × Climbs self.array.now self.base self.rows }
        ensures { Parted self.entry.array.now self.entry.base from self.entry.rows above result }
    {
        halve(from, self.rows, |k| self.above(k) < above)
    }
}
