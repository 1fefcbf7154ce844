// The version of the spec.
ghost use Rattle.std.specs.Prelude.{ℕ, ◌≤◌, length};
ghost use Rattle.codec.specs.Skip.{Is};
ghost use Rattle.codec.specs.Field.{Stands};
ghost use Rattle.codec.specs.Forms.{opt_c};
ghost use Rattle.format.specs.Spec.{version_c};
ghost use Rattle.format.specs.Sections.{job_of};
ghost use Rattle.spec.specs.VersionIs.{HoldsVersion, OptVersion};
ghost use Rattle.spec.specs.Index.{SpecIndexed};

use crate::Indexed;
use crate::ids::VersionRule;
use crate::read::{flag_at, stretch_at};

pub fn version_at(b: &[u8], at: usize) -> Option<VersionRule>
    requires { Stands (opt_c version_c) b.now at }
    ensures { (e : ℕ) (v : OptVersion) → e ≤ length b.now → Is (opt_c version_c) b.now e at v → HoldsVersion b.now result v }
{
    if !flag_at(b, at) {
        return None;
    }
    let n = codec::num_in(b, at + 1);
    let segment = stretch_at(b, at + 1);
    let element = codec::num_in(b, at + 5 + n) as u32;
    let first = stretch_at(b, at + 9 + n);
    Some(VersionRule {
        segment,
        element,
        first,
    })
}

pub fn version(job: Indexed) -> Option<VersionRule>
    requires { SpecIndexed job.bytes.now job.index.now }
    ensures { HoldsVersion job.entry.bytes.now result (job_of job.entry.bytes.now).spec.version }
{
    let p = codec::place(job.index, 3);
    version_at(job.bytes, p)
}
