// The rows that a cursor has left, one after the other.
ghost use Rattle.std.specs.Prelude.{◌≡◌, ◌≤◌, ◌<◌};
ghost use Rattle.nest.specs.Outline.{Outline};
ghost use Rattle.instances.specs.declared.Left.TheVariants.{Rows};
ghost use Rattle.instances.specs.Cursor.{passes, Ahead, Inside, Came, Going, moved};

use crate::{Cursor, Next};
use nest::TableRows;
use spec::ids::RowId;

// The next row; how many were seen with it, and where to look on.
#[derive(Clone, Copy)]
pub struct RowAhead {
    pub row: RowId,
    pub seen: usize,
    pub next: usize,
}

// Whether row k hangs on the row `above` less one; where that is 0 each does.
fn passes(all: TableRows, above: u32, k: usize) -> bool
    requires { (k < all.rows) × (above ≤ 4096) }
    ensures { result ≡ passes all.entry.array.now all.entry.base above k }
{
    above == 0 || all.held_at(k, RowId(above - 1))
}

// The next row that is left.
pub fn next_row(nest: &[u32], cur: Cursor) -> Option<RowAhead>
    requires { Inside nest.now cur }
    ensures { Ahead nest.now cur result }
{
    let c = cur.context;
    let t = cur.table;
    let start = walk::start_in(c, t);
    let end = walk::end_in(c, t, cur.rows);
    let mut seen = cur.seen;
    let all = TableRows {
        array: nest,
        base: cur.base,
        rows: cur.rows,
    };
    for k in cur.next..cur.rows {
        if passes(all, cur.above, k) {
            if end <= seen {
                return None;
            }
            if start <= seen {
                return Some(RowAhead {
                    row: RowId(k as u32),
                    seen: seen + 1,
                    next: k + 1,
                });
            }
            seen += 1;
        }
    }
    None
}

// The cursor further on.
pub fn moved(cur: Cursor, seen: usize, next: usize) -> Cursor
    ensures { result ≡ moved cur seen next }
{
    Cursor { seen, next, ..cur }
}

// The next instance of a `Rows` loop.
pub fn next_of_rows(nest: &[u32], cur: Cursor) -> Option<Next>
    requires { Inside nest.now cur × (cur.table.0 < 16) × (cur.kind ≡ Rows) }
    ensures { (o : Outline) → Going o nest.now cur → Came o nest.now cur result }
{
    let a = next_row(nest, cur)?;
    Some(Next {
        kind: cur.kind,
        row: a.row,
        start: 0,
        seen: a.seen,
        next: a.next,
    })
}
