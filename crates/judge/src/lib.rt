// Whether a job's plan is complete.
#![tactic(auto)]

ghost use Rattle.std.specs.Prelude.{◌≡◌, ◌&&◌};
ghost use Rattle.format.specs.Refusal.{refusal_of};
ghost use Rattle.format.specs.Sections.{job_of};
ghost use Rattle.complete.specs.Decides.{Decides};
ghost use Rattle.complete.specs.Complete.{CompletePlan};
ghost use Rattle.judge.specs.Judged.{Judged};
ghost use Rattle.nest.specs.Job.{job_by};

use index::fill_index;
use nest::Job;
use paths::{orders_fit, paths_fit, repeats_fit, rows_fit};
use places::places_fit;
use refusal::Refusal;
use spec::Indexed;

// The conditions but for places together: row loops, entries and orders, above a row loop, repeat loops.
fn all_four(one: bool, two: bool, three: bool, four: bool) -> bool
    ensures { result ≡ one && (two && (three && four)) }
{
    one && two && three && four
}

// The five conditions, of a job that passed. Places are judged last, since that asks for one entry a loop in the plan.
fn fits(job: Job) -> bool
    ensures { Decides result (CompletePlan (job_by job.entry)) }
{
    let one = rows_fit(job);
    let two = orders_fit(job);
    let three = paths_fit(job);
    let four = repeats_fit(job);
    let walked = all_four(one, two, three, four);
    walked && places_fit(job)
}

// Of a job that no refusal from 1 to 5 applies to.
#[tactic(auto, using(format::proofs::Passed::passed))]
fn judged(job: &[u8]) -> bool
    requires { refusal_of job.now ≡ 0 }
    ensures { Decides result (CompletePlan (job_of job.now)) }
{
    let mut index = [0u16; 10752];
    fill_index(job, &mut index);
    fits(Job {
        at: Indexed {
            bytes: job,
            index: &index,
        },
    })
}

/// Whether the plan of a job is complete (docs/RULES.md, "A complete plan"): of what such a job comes to nothing is lost. Takes any bytes; nothing is
/// changed. `Ok(true)` exactly where all five conditions hold, `Ok(false)` where one doesn't, and the refusal, 1 to 5, where `refusal::check` gives
/// one: such a job has no plan to judge. Refusal 6 isn't tried: a job with a complete plan may still have too many loop instances.
pub fn judge(job: &[u8]) -> Result<bool, Refusal>
    ensures { Judged job.now result }
{
    refusal::check(job)?;
    Ok(judged(job))
}
