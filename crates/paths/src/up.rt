// From a row loop upwards (docs/RULES.md, "Above a row loop").
ghost use Rattle.std.specs.Prelude.{◌≡◌, ℕ, suc, ◌<◌, eqb, length, true, false, ◌&&◌};
ghost use Rattle.plan.specs.Answers.{instances_of};
ghost use Rattle.nest.specs.Lists.{is, on};
ghost use Rattle.nest.specs.Outline.{Outline, kind_of, table_parent};
ghost use Rattle.nest.specs.OfJob.{kind_in};
ghost use Rattle.walk.specs.Check.{past, fits as fitsIn};
ghost use Rattle.paths.specs.Upward.{outcome};
ghost use Rattle.paths.specs.Tests.{row_fits};
ghost use Rattle.nest.specs.Job.{outline_by};

use crate::counts::{kind, loops};
use nest::Job;
use nest::hang::row_table;
use plan::answers::Instances;
use spec::ids::{LoopId, TableId};
use walk::parent_is;

// What a step upwards gives: an end, well or not, or the loop above and the table whose row loop came last.
#[derive(Clone, Copy)]
pub enum Up {
    No,
    Top,
    On(u32, u32),
}

// Above a loop without parent: well where the table has none either.
fn top(job: Job, w: TableId) -> Up
    ensures { (h : ℕ) → on (table_parent (outline_by job.entry) w.0) (λ u. false) true ≡ outcome (outline_by job.entry) h result }
{
    match spec::tables::table_parent(job.at, w) {
        Some(_) => Up::No,
        None => Up::Top,
    }
}

fn past_rows(job: Job, p: LoopId, w: TableId, v: TableId) -> Up
    ensures { (h : ℕ) → is (table_parent (outline_by job.entry) w.0) v.0 && fitsIn (outline_by job.entry) h p.0 v.0 ≡ outcome (outline_by job.entry) h result }
{
    if parent_is(job, w, v) {
        Up::On(p.0, v.0)
    } else {
        Up::No
    }
}

fn past_groups(p: LoopId, w: TableId, v: TableId) -> Up
    ensures { (j : Outline) (h : ℕ) → eqb v.0 w.0 && fitsIn j h p.0 w.0 ≡ outcome j h result }
{
    if v == w { Up::On(p.0, w.0) } else { Up::No }
}

fn past_kind(job: Job, p: LoopId, w: TableId, k: Instances) -> Up
    ensures { (h : ℕ) → past (outline_by job.entry) (fitsIn (outline_by job.entry) h p.0) w.0 (kind_in (instances_of k)) ≡ outcome (outline_by job.entry) h result }
{
    match k {
        Instances::Absent => Up::No,
        Instances::Envelope => Up::On(p.0, w.0),
        Instances::Rows(v) => past_rows(job, p, w, v),
        Instances::Inside(_) => Up::No,
        Instances::Groups(v) => past_groups(p, w, v),
        Instances::Implied => Up::On(p.0, w.0),
    }
}

fn past_loop(job: Job, p: LoopId, w: TableId) -> Up
    requires { p.0 < 32 }
    ensures { (h : ℕ) → past (outline_by job.entry) (fitsIn (outline_by job.entry) h p.0) w.0 (kind_of (outline_by job.entry) p.0) ≡ outcome (outline_by job.entry) h result }
{
    past_kind(job, p, w, kind(job, p))
}

fn step_up(job: Job, l: LoopId, w: TableId) -> Up
    ensures { (h : ℕ) → fitsIn (outline_by job.entry) (suc h) l.0 w.0 ≡ outcome (outline_by job.entry) h result }
{
    match spec::loops::loop_parent(job.at, l) {
        Some(p) => past_loop(job, LoopId(p), w),
        None => top(job, w),
    }
}

fn fits(job: Job, l: LoopId, w: TableId) -> bool
    ensures { result ≡ fitsIn (outline_by job.entry) (length (outline_by job.entry).loops) l.0 w.0 }
{
    let n = loops(job);
    let mut at = l.0;
    let mut last = w.0;
    for _i in 0..n {
        match step_up(job, LoopId(at), TableId(last)) {
            Up::On(p, v) => {
                at = p;
                last = v;
            }
            Up::Top => {
                return true;
            }
            Up::No => {
                return false;
            }
        }
    }
    false
}

// Whether the loops above a row loop fit its table.
pub fn row_fits(job: Job, l: LoopId) -> bool
    requires { l.0 < 32 }
    ensures { result ≡ row_fits (outline_by job.entry) l.0 }
{
    match row_table(kind(job, l)) {
        Some(t) => fits(job, l, TableId(t)),
        None => true,
    }
}
