// The row that opened an instance of a `Rows` loop.
ghost use Rattle.std.specs.Prelude.{◌≡◌, List, ℕ, ◌<◌};
ghost use Rattle.std.specs.Option.{option_map};
ghost use Rattle.nest.specs.Outline.{kind_of};
ghost use Rattle.nest.specs.Nest.{row_of};
ghost use Rattle.walk.specs.Contexts.{context_by};
ghost use Rattle.walk.specs.Tour.{own_row, stop_at};
ghost use Rattle.emit.specs.Fold.{steps_out};
ghost use Rattle.emit.specs.Did.{state_of, Did};
ghost use Rattle.run.specs.Went.{owner_by, Walks};
ghost use Rattle.nest.specs.Job.{outline_by, job_by};

use emit::state::State;
use nest::Job;
use spec::ids::{LoopId, RowId, TableId};
use walk::{Context, Nest, row_of};

// The row that opened an instance.
#[derive(Clone, Copy)]
pub struct Owner {
    pub table: TableId,
    pub row: RowId,
}

fn owner_in(c: Context, t: TableId) -> Option<Owner>
    ensures { owner_by result ≡ option_map (row_of t.0) ((context_by c).row t.0) }
{
    let row = row_of(c, t)?;
    Some(Owner { table: t, row })
}

// The row that opened an instance of loop l.
pub fn own_row(job: Job, l: LoopId, c: Context) -> Option<Owner>
    requires { l.0 < 32 }
    ensures { owner_by result ≡ own_row (kind_of (outline_by job.entry) l.0) (context_by c) }
{
    let kind = plan::planned::instances(job.at, l);
    let table = nest::hang::row_table(kind)?;
    owner_in(c, TableId(table))
}

// An instance of a `Rows` loop stops at the row that opened it.
pub fn enter_own(
    nest: Nest,
    findings: &mut [u64],
    stops: &mut [u64],
    s: &mut State,
    l: LoopId,
    c: Context,
)
    requires { Walks (outline_by nest.job) s.old l.0 c }
    ensures { (d g : List ℕ) → Did (steps_out (job_by nest.entry.job) (stop_at l.0 (own_row (kind_of (outline_by nest.entry.job) l.0) (context_by c))) (state_of s.old)) s.old s.new d d g g
        findings.old findings.new stops.old stops.new }
{
    if let Some(own) = own_row(nest.job, l, c) {
        let i = own.table.0 as usize;
        let m = s.high[i];
        let e = enter::enter(nest, findings, stops, m, s.counts, l, own.table, own.row);
        s.high[i] = e.mark;
        s.counts = e.counts;
    }
}
