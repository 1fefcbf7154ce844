// Questions about a table of the spec.
ghost use Rattle.std.specs.Prelude.{◌≡◌};
ghost use Rattle.nest.specs.Lists.{is};
ghost use Rattle.nest.specs.Outline.{table_parent, plain};
ghost use Rattle.nest.specs.Job.{outline_by};

use nest::Job;
use spec::ids::TableId;

// Whether the spec has table t, and without repeat segment.
pub fn is_plain(job: Job, t: TableId) -> bool
    ensures { result ≡ plain (outline_by job.entry) t.0 }
{
    t.0 < spec::tables::table_count(job.at) && !spec::tables::repeats(job.at, t)
}

// Whether table u is the parent of table t.
pub fn parent_is(job: Job, t: TableId, u: TableId) -> bool
    ensures { result ≡ is (table_parent (outline_by job.entry) t.0) u.0 }
{
    spec::tables::table_parent(job.at, t) == Some(u.0)
}
