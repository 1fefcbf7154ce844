// The trigger of an envelope loop.
ghost use Rattle.std.specs.Prelude.{◌≡◌};
ghost use Rattle.format.specs.Refusal.{separators};
ghost use Rattle.format.specs.Ask.{loop_of, depth_of};
ghost use Rattle.spec.specs.Answers.{Holds};
ghost use Rattle.nest.specs.Finding.{number_from};
ghost use Rattle.nest.specs.Job.{job_by};
ghost use Rattle.emit.specs.Fold.{separators_of};
ghost use Rattle.emit.specs.Written.{tried};

use emit::findings::Delimiters;
use nest::Job;
use segment::Separators;
use spec::ids::{ControlRule, LoopId, Stretch};

// A loop, a control rule and a control number; and what each element of the loop's trigger takes of them: the separators, those that a text is tried for,
// the trigger's identifier, the identifier as a number, and the loop's depth.
#[derive(Clone, Copy)]
pub struct Frame<'a> {
    pub job: Job<'a>,
    pub l: LoopId,
    pub rule: ControlRule,
    pub number: u64,
    pub sep: Separators,
    pub delimiters: Delimiters,
    pub id: Stretch,
    pub name: u64,
    pub depth: u32,
    pub ghost sep_is: { separators_of (job_by job) ≡ sep },
    pub ghost delimiters_are: { tried delimiters ≡ separators (job_by job).envelope },
    pub ghost id_is: { Holds job.at.bytes.now id (loop_of (job_by job) l.0).trigger },
    pub ghost name_is: { name ≡ number_from 0 (loop_of (job_by job) l.0).trigger },
    pub ghost depth_is: { depth ≡ depth_of (job_by job) l.0 },
}
