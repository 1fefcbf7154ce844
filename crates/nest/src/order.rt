// Tables whose rows hang on rising rows. The last sixteen numbers of nest's array, behind those of all rows, are a flag for each table of data: 1 where they do.
// They lie in the array that holds the rows, so that a walk takes one array. A program gets the rows' numbers alone.
ghost use Rattle.std.specs.Prelude.{◌≡◌, not, [], ◌∷◌, ◌+◌, ◌-◌, ◌*◌, ◌≤◌, ◌<◌, length};
ghost use Rattle.std.proofs.lemmas.List.Edits.{sets};
ghost use Rattle.nest.specs.Lists.{once};
ghost use Rattle.nest.specs.Found.{ArrayIs};
ghost use Rattle.format.specs.Refusal.{rows_of_all};
ghost use Rattle.nest.specs.Rising.{falls, rising_flags, rises};
ghost use Rattle.nest.specs.Job.{outline_by, job_by};

use crate::Job;
use spec::ids::TableId;

// Whether some row of table t hangs on an earlier row than the row before it.
pub fn falls(job: Job, nest: &[u32], t: TableId) -> bool
    requires { ArrayIs (outline_by job) nest.now }
    ensures { result ≡ falls (outline_by job.entry) t.0 }
{
    let base = tables::data::first_row(job.at, t) as usize;
    let rows = tables::data::row_count(job.at, t) as usize;
    for k in 1..rows {
        let i = (base + k) * 3;
        let before = i - 3;
        if nest[i] < nest[before] {
            return true;
        }
    }
    false
}

// The flag of a table at place i.
pub fn put_flag(nest: &mut [u32], i: usize, down: bool)
    requires { i < length nest.old }
    ensures { nest.new ≡ sets nest.old i (once (not down) ∷ []) }
{
    nest[i] = u32::from(!down);
}

// The flags of all tables of data.
pub fn mark_rising(job: Job, nest: &mut [u32])
    requires { ArrayIs (outline_by job) nest.old × (rows_of_all (job_by job).tables * 3 + 16 ≤ length nest.old) }
    ensures { nest.new ≡ sets nest.old (length nest.old - 16) (rising_flags (outline_by job.entry)) }
{
    let count = tables::data::data_count(job.at);
    let flags = nest.len() - 16;
    for t in 0..count {
        let down = falls(job, nest, TableId(t));
        put_flag(nest, flags + t as usize, down);
    }
}

// Whether the flag of table t is set.
pub fn rises(nest: &[u32], t: TableId) -> bool
    requires { 16 ≤ length nest.now }
    ensures { result ≡ rises nest.now t.0 }
{
    let i = nest.len() - 16 + t.0 as usize;
    if i < nest.len() {
        return nest[i] == 1;
    }
    false
}
