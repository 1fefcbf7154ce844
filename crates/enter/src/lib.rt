// A row is entered: a finding where it is lower than the highest of its table yet entered, and a stop.
#![tactic(auto)]

ghost use Rattle.std.specs.Prelude.{◌≡◌, List, [], ◌∷◌, ℕ, ◌+◌, ◌*◌, ◌<◌, length};
ghost use Rattle.lent.specs.Window.{Noted};
ghost use Rattle.nest.specs.Lists.{on};
ghost use Rattle.nest.specs.Outline.{row_count};
ghost use Rattle.nest.specs.Finding.{out_of_order};
ghost use Rattle.emit.specs.Fold.{above, order_findings, stop_out};
ghost use Rattle.emit.specs.Written.{words_of};
ghost use Rattle.emit.specs.Did.{mark_of, DidMark, Within};
ghost use Rattle.enter.specs.Placed.{placed_at};
ghost use Rattle.nest.specs.Job.{outline_by};

use emit::state;
use emit::state::{Counts, Mark};
use nest::Job;
use spec::ids::{LoopId, RowId, TableId};
use walk::Nest;

// The table that placed a repeat row.
fn placed_by(nest: &[u32], base: usize, r: RowId) -> Option<u32>
    requires { (base + r.0) * 3 + 2 < length nest.now }
    ensures { result ≡ placed_at nest.now base r.0 }
{
    let i = (base + r.0 as usize) * 3;
    if nest[i] == 0 {
        return None;
    }
    let k = i + 2;
    Some(nest[k])
}

// The table that a row hangs on.
fn table_above(nest: Nest, t: TableId, r: RowId) -> Option<u32>
    requires { r.0 < row_count (outline_by nest.job) t.0 }
    ensures { result ≡ above (outline_by nest.entry.job) t.0 r.0 }
{
    let again = spec::tables::repeats(nest.job.at, t);
    if again {
        let first = tables::data::first_row(nest.job.at, t);
        return placed_by(nest.array, first as usize, r);
    }
    spec::tables::table_parent(nest.job.at, t)
}

// A row's reference to a table above, as a finding has it: 0 where there is none.
fn reference(job: Job, t: TableId, above: u32, r: RowId) -> u64
    ensures { result ≡ on ((outline_by job.entry).reference t.0 above r.0) (λ v. v) 0 }
{
    tables::data::reference(job.at, t, above, r).unwrap_or(0)
}

// The finding of a row that is lower than the highest; a row of a table with none above has no finding.
fn note_lower(
    job: Job,
    findings: &mut [u64],
    at: usize,
    t: TableId,
    r: RowId,
    table: Option<u32>,
    highest: u32,
) -> usize
    ensures { Noted findings.old at (words_of (on table (λ u. out_of_order t.0 r.0 u (on ((outline_by job.entry).reference t.0 u r.0) (λ v. v) 0) highest ∷ []) [])) result findings.new }
{
    let Some(u) = table else {
        return lent::more(at, 0);
    };
    let value = reference(job, t, u, r);
    state::note_order(findings, at, t, r, u, value, highest)
}

// The findings on a row's order, where m is the highest row of its table.
fn note_order(nest: Nest, findings: &mut [u64], at: usize, m: Mark, t: TableId, r: RowId) -> usize
    requires { (t.0 < 16) × (r.0 < row_count (outline_by nest.job) t.0) }
    ensures { Noted findings.old at (words_of (order_findings (outline_by nest.entry.job) t.0 r.0 (mark_of m))) result findings.new }
{
    let Some(highest) = m else {
        return lent::more(at, 0);
    };
    if r < highest {
        let table = table_above(nest, t, r);
        return note_lower(nest.job, findings, at, t, r, table, highest.0);
    }
    lent::more(at, 0)
}

// The highest row of a table when one of its rows is entered, and the counts.
#[derive(Clone, Copy)]
pub struct Entered {
    pub mark: Mark,
    pub counts: Counts,
}

// A row of a table is entered by loop l, where m is the highest row of the table.
pub fn enter(
    nest: Nest,
    findings: &mut [u64],
    stops: &mut [u64],
    m: Mark,
    c: Counts,
    l: LoopId,
    t: TableId,
    r: RowId,
) -> Entered
    requires { Within c × (t.0 < 16) × (r.0 < row_count (outline_by nest.job) t.0) }
    ensures { (d g : List ℕ) → DidMark t.0 (stop_out (outline_by nest.entry.job) l.0 t.0 r.0) m result.mark c result.counts d d g g findings.old findings.new stops.old stops.new }
{
    let noted = note_order(nest, findings, c.findings, m, t, r);
    let words = [l.0 as u64, t.0 as u64, r.0 as u64, 0, 0, 0, 0, 0, 0, 0];
    let at = lent::put_words(stops, c.stops, words, 3);
    let mark = state::raised(m, r);
    let mut counts = c;
    counts.findings = noted;
    counts.stops = at;
    Entered { mark, counts }
}
