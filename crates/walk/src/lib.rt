// The walk through the loops.
#![tactic(auto)]

ghost use Rattle.std.specs.Prelude.{◌≡◌, ◌+◌, ◌<◌};
ghost use Rattle.nest.specs.Found.{found_by};
ghost use Rattle.walk.specs.Census.{counted};
ghost use Rattle.walk.specs.Contexts.{context_by, kept_outside, kept_row, kept_piece, row_by, start_by, end_by};

pub mod laws;
mod nested;
mod outline;

pub use nested::Nest;
pub use outline::{is_plain, parent_is};
use spec::ids::{RowId, TableId};

// A run of grouped rows: its table, and its bounds, counted from the start of the parent's list.
#[derive(Clone, Copy)]
pub struct Run {
    pub table: TableId,
    pub start: usize,
    pub end: usize,
}

// The rows an instance sits in: for each table a row plus one, or 0; and inside an instance given by a run of grouped rows the run.
// A context stands by value in each level of the walk's calls, whose stack is bounded (docs/BENCHMARKS.md, "Stack"): rows as `Option<RowId>` would take
// twice as much at each level.
#[derive(Clone, Copy)]
pub struct Context {
    pub rows: [u32; 16],
    pub run: Option<Run>,
}

// Outside of all loops.
pub fn outside() -> Context
    ensures { result ≡ kept_outside }
{
    Context {
        rows: [0; 16],
        run: None,
    }
}

// Row r of table t is entered: no run bounds what is below it.
pub fn in_row(c: Context, t: TableId, r: RowId) -> Context
    requires { (t.0 < 16) × (r.0 < 4096) }
    ensures { result ≡ kept_row c t.0 r.0 }
{
    let mut rows = c.rows;
    rows[t.0 as usize] = r.0 + 1;
    Context { rows, run: None }
}

// A run of table t is entered, at its first row.
pub fn in_piece(c: Context, t: TableId, head: RowId, start: usize, end: usize) -> Context
    requires { (t.0 < 16) × (head.0 < 4096) }
    ensures { result ≡ kept_piece c t.0 head.0 start end }
{
    let mut rows = c.rows;
    rows[t.0 as usize] = head.0 + 1;
    Context {
        rows,
        run: Some(Run {
            table: t,
            start,
            end,
        }),
    }
}

// The row of table t that an instance sits in.
pub fn row_in(c: Context, t: TableId) -> Option<RowId>
    requires { t.0 < 16 }
    ensures { result ≡ row_by c t.0 }
{
    let p = c.rows[t.0 as usize];
    if p == 0 {
        return None;
    }
    Some(RowId(p - 1))
}

// The same of any table: none from 16 on has a row.
pub fn row_of(c: Context, t: TableId) -> Option<RowId>
    ensures { result ≡ found_by ((context_by c).row t.0) }
{
    if t.0 < 16 { row_in(c, t) } else { None }
}

// Where the rows of table t start in the parent's list.
#[tactic(auto, unfolding(crate::specs::Contexts::start_by))]
pub fn start_in(c: Context, t: TableId) -> usize
    ensures { result ≡ start_by c t.0 }
{
    match c.run {
        Some(r) => if r.table == t { r.start } else { 0 },
        None => 0,
    }
}

// And where they end, of n rows.
#[tactic(auto, unfolding(crate::specs::Contexts::end_by))]
pub fn end_in(c: Context, t: TableId, n: usize) -> usize
    ensures { result ≡ end_by c t.0 n }
{
    match c.run {
        Some(r) => if r.table == t { r.end } else { n },
        None => n,
    }
}

// The number of instances so far, one more: it stops at the first number past the limit of refusal 6.
pub fn one_more(n: u32) -> u32
    ensures { result ≡ counted n }
{
    if n < 65537 { n + 1 } else { 65537 }
}
