// The index of a job that passed: the places of its parts, so that nothing is looked for twice.
#![tactic(auto)]

ghost use Rattle.std.specs.Prelude.{◌≡◌, ◌≤◌, length};
ghost use Rattle.format.specs.Passed.{Passed};
ghost use Rattle.nest.specs.Ready.{Ready};

pub fn fill_index(job: &[u8], index: &mut [u16])
    requires { Passed job.now × (10752 ≤ length index.old) }
    ensures { Ready job.now index.new × (length index.new ≡ length index.old) }
{
    spec::fill::fill(job, index);
    plan::index::fill(job, index);
    tables::fill::fill(job, index);
}
