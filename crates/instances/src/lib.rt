// The instances of a loop in a context, one after the other.
#![tactic(auto)]

ghost use Rattle.std.specs.Prelude.{◌≡◌, not, ◌<◌};
ghost use Rattle.nest.specs.Lists.{is_empty_list};
ghost use Rattle.walk.specs.Nested.{Sound};
ghost use Rattle.walk.specs.Contexts.{context_by};
ghost use Rattle.walk.specs.Instances.{instances};
ghost use Rattle.instances.specs.Cursor.{coming, context_in, behind, Came, Going};
ghost use Rattle.nest.specs.Job.{outline_by};

use crate::kinds::{by_children, by_kind, rowless};
use crate::pieces::next_piece;
use crate::rows::next_of_rows;
use spec::ids::{LoopId, RowId, TableId};
use walk::{Context, Nest};

mod kinds;
mod pieces;
mod rows;
mod stretch;

// What a cursor still gives: no instance, one in the context itself, one in each row that is left of the table, or one in each run of those.
#[derive(Clone, Copy)]
pub enum Left {
    Nothing,
    Itself,
    Rows,
    Runs,
}

// The instances still to come of loop l in a context. Left are the rows from `next` on, below `rows`, that hang on the row `above` less one, or all
// where it is 0, as far as the context's run has them; `seen` of them stood before. The numbers of the table's rows start at `base` in nest's array.
// `above` is compared with nest's numbers, which are rows plus one, or 0. That a cursor is within the rows (`Inside`) is said of nest's array too.
#[derive(Clone, Copy)]
pub struct Cursor {
    pub context: Context,
    pub base: usize,
    pub rows: usize,
    pub seen: usize,
    pub next: usize,
    pub above: u32,
    pub kind: Left,
    pub l: LoopId,
    pub table: TableId,
}

// The next instance: its row, or the first row of its run, and how many of the parent's list stand before the run. Behind it the cursor is
// of this kind, and stands at `seen` and `next`.
#[derive(Clone, Copy)]
pub struct Next {
    pub kind: Left,
    pub row: RowId,
    pub start: usize,
    pub seen: usize,
    pub next: usize,
}

// The context of the instance that a cursor gives next.
pub fn context_in(cur: Cursor, at: Next) -> Context
    requires { (cur.table.0 < 16) × (at.row.0 < 4096) }
    ensures { result ≡ context_in cur at }
{
    let c = cur.context;
    let t = cur.table;
    let r = at.row;
    match cur.kind {
        Left::Itself => c,
        Left::Rows => walk::in_row(c, t, r),
        Left::Nothing | Left::Runs => walk::in_piece(c, t, r, at.start, at.seen),
    }
}

// The cursor behind the instance that it gives next.
pub fn behind(cur: Cursor, at: Next) -> Cursor
    ensures { result ≡ behind cur at }
{
    Cursor {
        kind: at.kind,
        seen: at.seen,
        next: at.next,
        ..cur
    }
}

// The next of the instances still to come.
pub fn next_instance(nest: Nest, cur: Cursor) -> Option<Next>
    requires { Going (outline_by nest.job) nest.array.now cur }
    ensures { Came (outline_by nest.entry.job) nest.entry.array.now cur result }
{
    match cur.kind {
        Left::Nothing => None,
        Left::Itself => Some(Next {
            kind: Left::Nothing,
            row: RowId(0),
            start: 0,
            seen: 0,
            next: 0,
        }),
        Left::Rows => next_of_rows(nest.array, cur),
        Left::Runs => next_piece(nest.job, nest.array, cur),
    }
}

// Whether loop l has an instance in context c, looking `height` levels down: an `Implied` loop has one where a child has.
fn has_instance(nest: Nest, l: LoopId, c: Context, height: u32) -> bool
    requires { Sound (outline_by nest.job) (context_by c) × (l.0 < 32) }
    ensures { result ≡ not (is_empty_list (instances (outline_by nest.entry.job) height l.0 (context_by c))) }
{
    if height == 0 {
        return false;
    }
    let kind = plan::planned::instances(nest.job.at, l);
    if by_children(kind) {
        let n = spec::loops::child_count(nest.job.at, l);
        for i in 0..n {
            let k = spec::loops::child(nest.job.at, l, i);
            if has_instance(nest, k, c, height - 1) {
                return true;
            }
        }
        return false;
    }
    let cur = by_kind(nest, kind, l, c);
    next_instance(nest, cur).is_some()
}

// The instances of loop l in context c, looking `height` levels down.
pub fn instances(nest: Nest, l: LoopId, c: Context, height: u32) -> Cursor
    requires { Sound (outline_by nest.job) (context_by c) × (l.0 < 32) }
    ensures { (coming (outline_by nest.entry.job) nest.entry.array.now result ≡ instances (outline_by nest.entry.job) height l.0 (context_by c)) × Going (outline_by nest.entry.job) nest.entry.array.now result }
{
    if height == 0 {
        return rowless(Left::Nothing, l, c);
    }
    let kind = plan::planned::instances(nest.job.at, l);
    if !by_children(kind) {
        return by_kind(nest, kind, l, c);
    }
    if has_instance(nest, l, c, height) {
        rowless(Left::Itself, l, c)
    } else {
        rowless(Left::Nothing, l, c)
    }
}
