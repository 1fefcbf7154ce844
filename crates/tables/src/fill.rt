// The region of the index that belongs to data, and how it is filled.
ghost use Rattle.std.specs.Prelude.{◌≡◌, List, ℕ, ◌+◌, ◌≤◌, ◌<◌, length, get_or};
ghost use Rattle.codec.specs.Skip.{count_at};
ghost use Rattle.codec.specs.Rows.{small};
ghost use Rattle.format.specs.Passed.{Passed};
ghost use Rattle.spec.specs.Kept.{Kept};
ghost use Rattle.tables.specs.Parts.{refs_from, rows_by};
ghost use Rattle.tables.specs.Index.{DataLists, DataInto, RefsStored, TablesFilled};

use codec::forms::{Items, Le, Opt};
use codec::{Form, Section};
use format::Column;
use spec::region::list_into;

// Where the references of the table at p stand: its fields are gone through one after the other, as in `format::TableData`.
fn refs_at(s: Section, p: usize) -> usize
    ensures { result ≡ refs_from s.entry.bytes.now s.entry.end p }
{
    let row = s.le_at(4, p);
    let segment = Opt::<Column>::ends_at(s, row);
    Opt::<Column>::ends_at(s, segment)
}

// Stores the place of table t and those of its columns; answers the place behind it. There are 16 tables at most (docs/RULES.md, "Limits").
pub fn table_into(s: Section, index: &mut [u16], t: u32, p: usize) -> usize
    requires { t < 16 }
    ensures { (start : ℕ) (old : List ℕ) → DataLists s.entry.bytes.now s.entry.end start t p old index.old → DataLists s.entry.bytes.now s.entry.end start (t + 1) result old index.new }
{
    codec::put(index, 2625 + t as usize, p);
    let refs = refs_at(s, p);
    let columns = Items::<(Le<4>, Opt<Column>)>::ends_at(s, refs);
    list_into::<Opt<Column>>(s, index, 2674 + t as usize * 33, columns)
}

// Stores the place of the list of n tables, those of the tables and those of their columns.
pub fn tables_into(s: Section, index: &mut [u16], n: u32, at: usize)
    requires { (n ≤ 16) × (n ≡ count_at s.bytes.now at s.end) }
    ensures { DataInto s.entry.bytes.now s.entry.end at index.old index.new }
{
    let mut p = s.le_at(4, at);
    for t in 0..n {
        p = table_into(s, index, t, p);
    }
    codec::put(index, 2624, at);
}

// Stores for each of the first n tables the place of its references, and in front of them n.
pub fn refs_into(s: Section, index: &mut [u16], n: u32)
    requires { n ≤ 16 }
    ensures { RefsStored s.entry.bytes.now s.entry.end n index.old index.new }
{
    for t in 0..n {
        let p = codec::place(index, 2625 + t as usize);
        codec::put(index, 3203 + t as usize, refs_at(s, p));
    }
    codec::put(index, 3202, n as usize);
}

// Stores for each of the first n tables, and behind them, how many rows stand in the tables before.
pub fn firsts_into(job: &[u8], index: &mut [u16], n: u32)
    requires { n ≤ 16 }
    ensures { Kept 2657 2674 index.old index.new × ((t : ℕ) → t ≤ n → 2657 + t < length index.old → get_or index.new (2657 + t) 0 ≡ small (rows_by job.now index.old t)) }
{
    let mut first: usize = 0;
    for t in 0..n as usize {
        codec::put(index, 2657 + t, first);
        let p = codec::place(index, 2625 + t);
        first = first + codec::num(job, p);
    }
    codec::put(index, 2657 + n as usize, first);
}

// Fills the region.
pub fn fill(job: &[u8], index: &mut [u16])
    requires { Passed job.now }
    ensures { TablesFilled job.now index.old index.new }
{
    let t = job.len() - 24;
    let start = codec::num_in(job, t + 16);
    let s = Section {
        bytes: job,
        end: t as u32,
    };
    let n = s.count_at(start);
    tables_into(s, index, n as u32, start);
    refs_into(s, index, n as u32);
    firsts_into(job, index, n as u32);
}
