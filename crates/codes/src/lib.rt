// Places of a complete plan (docs/RULES.md, "Places"), as far as no index is needed: control rules, the spec's maps and codes, judged where the job
// stands.
#![tactic(auto)]

mod codes;
mod maps;
mod rules;

ghost use Rattle.format.specs.Passed.{Passed};
ghost use Rattle.format.specs.Sections.{job_of};
ghost use Rattle.format.specs.Spec.{spec_c};
ghost use Rattle.says.specs.Says.{Says};
ghost use Rattle.codes.specs.Codes.{MarksOf, marked_spec};
ghost use Rattle.complete.specs.Decides.{Decides};
ghost use Rattle.complete.specs.Complete.{CodesClear};
ghost use Rattle.codes.specs.Fits.{MapsFit, RulesFit};
ghost use Rattle.nest.specs.Job.{job_by};

use crate::codes::Marks;
use codec::forms::{BytesMap, Items, NumMap};
use codec::{Form, Section};
use format::{Element, Loop, Table};
use nest::Job;
use spec::read::{section, spec_of, start};

// Control rules.
pub fn rules_fit(job: &[u8]) -> bool
    requires { Passed job.now }
    ensures { Decides result (RulesFit (job_of job.now)) }
{
    !rules::loops_wrong(spec_of(job), 0)
}

// The spec's maps.
pub fn maps_fit(job: &[u8]) -> bool
    requires { Passed job.now }
    ensures { Decides result (MapsFit (job_of job.now)) }
{
    let s = spec_of(job);
    let loops = Items::<Loop>::ends_at(s, 0);
    let roots = s.les_at(4, loops);
    !maps::segments_low(s, roots)
}

fn marks(job: Job) -> Marks
    ensures { MarksOf (job_by job.entry) result }
{
    let element = spec::envelope::element_separator(job.at);
    let component = spec::envelope::component_separator(job.at);
    let segment = spec::envelope::segment_terminator(job.at);
    Marks {
        element: element as usize,
        component: component as usize,
        segment: segment as usize,
    }
}

fn spec_marked(s: Section, m: Marks) -> bool
    ensures { Says spec_c s.entry.bytes.now s.entry.end 0 (marked_spec m) result }
{
    let loops = Items::<Loop>::ends_at(s, 0);
    let roots = s.les_at(4, loops);
    let segments = BytesMap::<NumMap<Element>>::ends_at(s, roots);
    let tables = Items::<Table>::ends_at(s, segments);
    codes::segments_marked(s, roots, m) || codes::opt_version_marked(s, tables, m)
}

// Codes in plan and spec, and the version's first value.
pub fn codes_clear(job: Job) -> bool
    ensures { Decides result (CodesClear (job_by job.entry)) }
{
    let m = marks(job);
    let plan = start(job.at.bytes, 4);
    let in_plan = codes::plan_marked(section(job.at.bytes, 8), plan as usize, m);
    let in_spec = spec_marked(spec_of(job.at.bytes), m);
    !in_plan && !in_spec
}
