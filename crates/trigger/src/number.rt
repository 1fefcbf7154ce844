// A loop's control number.
ghost use Rattle.std.specs.Prelude.{◌≡◌};
ghost use Rattle.format.specs.Spec.{Control};
ghost use Rattle.segment.specs.Values.{value_text};
ghost use Rattle.emit.specs.Envelope.{control_in};
ghost use Rattle.nest.specs.Job.{job_by};

use emit::cells::width_of;
use nest::Job;
use segment::Value;
use spec::ids::LoopId;

// A control number in the trigger of loop l, at the opener's element.
pub fn control_in(job: Job, l: LoopId, opener: u32, number: u64) -> Value
    ensures { (k : Control) → k.opener ≡ opener → value_text job.entry.at.bytes.now result ≡ control_in (job_by job.entry) l.0 k number }
{
    let id = spec::loops::trigger(job.at, l);
    let min = spec::segments::min_of(job.at, id, opener);
    emit::envelope::control_value(number, width_of(min))
}
