// Places of a complete plan (docs/RULES.md, "Places"): places, separators and codes, judged where the job stands.
#![tactic(auto)]

mod job_section;
mod spots;
mod triggers;

ghost use Rattle.std.specs.Prelude.{length, ◌≡◌};
ghost use Rattle.format.specs.Sections.{layout_start};
ghost use Rattle.complete.specs.Decides.{Decides};
ghost use Rattle.complete.specs.Complete.{Places, SeparatorsAlone};
ghost use Rattle.places.specs.Fits.{SegmentsFit};
ghost use Rattle.nest.specs.Job.{job_by};

use crate::job_section::JobSection;
use codec::Section;
use codes::{codes_clear, maps_fit, rules_fit};
use nest::Job;
use spec::read::start;

// The section of a job's plan.
fn plan_of(job: Job) -> JobSection
    ensures bytes { result.section.bytes.now ≡ job.entry.at.bytes.now }
    ensures job { result.job.at.bytes.now ≡ job.entry.at.bytes.now }
    ensures end { result.section.end ≡ layout_start job.entry.at.bytes.now }
{
    JobSection {
        section: Section {
            bytes: job.at.bytes,
            end: start(job.at.bytes, 8),
        },
        job,
    }
}

// The places of planned segments.
pub fn segments_fit(job: Job) -> bool
    ensures { Decides result (SegmentsFit (job_by job.entry)) }
{
    let at = start(job.at.bytes, 4);
    !spots::plans_wrong(plan_of(job), at as usize)
}

// Envelope fields that give a separator.
pub fn separators_alone(job: Job) -> bool
    requires { length (job_by job).plan ≡ length (job_by job).spec.loops }
    ensures { Decides result (SeparatorsAlone (job_by job.entry)) }
{
    let at = start(job.at.bytes, 4);
    !triggers::loops_wrong(plan_of(job), at as usize)
}

// Places of a complete plan, where the plan has one entry a loop.
pub fn places_fit(job: Job) -> bool
    requires { length (job_by job).plan ≡ length (job_by job).spec.loops }
    ensures { Decides result (Places (job_by job.entry)) }
{
    let rules = rules_fit(job.at.bytes);
    let maps = maps_fit(job.at.bytes);
    let segments = segments_fit(job);
    let codes = codes_clear(job);
    let alone = separators_alone(job);
    segments && maps && rules && alone && codes
}
