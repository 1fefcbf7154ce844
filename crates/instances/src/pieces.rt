// The runs of rows that a cursor has left: a run goes on while its rows are in the group of its first.
ghost use Rattle.std.specs.Prelude.{◌≡◌, ◌<◌};
ghost use Rattle.instances.specs.declared.Left.TheVariants.{Runs};
ghost use Rattle.instances.specs.Cursor.{Inside, Came, Going, RunEnds};
ghost use Rattle.nest.specs.Job.{outline_by};

use crate::rows::{moved, next_row};
use crate::{Cursor, Next};
use due::same_group;
use nest::Job;
use spec::ids::RowId;

// Where a run ends: so many were seen, and where to look on.
#[derive(Clone, Copy)]
struct RunEnd {
    seen: usize,
    next: usize,
}

// How far the run of the row `head` goes that the cursor stands in.
fn run_end(job: Job, nest: &[u32], cur: Cursor, head: RowId) -> RunEnd
    requires { Inside nest.now cur × (cur.l.0 < 32) }
    ensures { RunEnds (outline_by job.entry) nest.now cur head.0 result }
{
    let l = cur.l;
    let mut seen = cur.seen;
    let mut next = cur.next;
    // each row tells where the next is looked for
    while let Some(a) = next_row(nest, moved(cur, seen, next)) {
        let row = a.row;
        if !same_group(job, l, head, row) {
            return RunEnd { seen, next };
        }
        seen = a.seen;
        next = a.next;
    }
    RunEnd { seen, next }
}

// The next instance of a `Groups` loop. `seen` rows of the parent's list stand before the first of the run.
pub fn next_piece(job: Job, nest: &[u32], cur: Cursor) -> Option<Next>
    requires { Going (outline_by job) nest.now cur × (cur.kind ≡ Runs) }
    ensures { Came (outline_by job.entry) nest.now cur result }
{
    let a = next_row(nest, cur)?;
    let head = a.row;
    let first = moved(cur, a.seen, a.next);
    let e = run_end(job, nest, first, head);
    Some(Next {
        kind: cur.kind,
        row: head,
        start: a.seen - 1,
        seen: e.seen,
        next: e.next,
    })
}
