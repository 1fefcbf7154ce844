// The loops of the spec. A loop that is not there has no parent, no segments and no children.
ghost use Rattle.std.specs.Prelude.{◌<◌, ◌≡◌, [], get_or, length};
ghost use Rattle.format.specs.Sections.{job_of};
ghost use Rattle.format.specs.Ask.{loop_of};
ghost use Rattle.spec.specs.Answers.{Holds, HoldsText, control_of};
ghost use Rattle.spec.specs.Usage.{is_required};
ghost use Rattle.spec.specs.Index.{SpecIndexed, row_place};

use crate::Indexed;
use crate::ids::{ControlRule, LoopId, Stretch};
use crate::read::{
    control_at, flag_at, item_at, number_at, row_place, spec_of, stretch_at, string_at, text_at,
};

// A reader for each field: each promises a field of its own, in the type of that field.
pub fn loop_count(job: Indexed) -> u32
    requires { SpecIndexed job.bytes.now job.index.now }
    ensures { result ≡ length (job_of job.entry.bytes.now).spec.loops }
{
    let p = codec::place(job.index, 0);
    codec::num_in(job.bytes, p) as u32
}

pub fn root_count(job: Indexed) -> u32
    requires { SpecIndexed job.bytes.now job.index.now }
    ensures { result ≡ length (job_of job.entry.bytes.now).spec.roots }
{
    let p = codec::place(job.index, 1);
    codec::num_in(job.bytes, p) as u32
}

pub fn root(job: Indexed, k: u32) -> LoopId
    requires { SpecIndexed job.bytes.now job.index.now }
    ensures { result.0 ≡ get_or (job_of job.entry.bytes.now).spec.roots k 0 }
{
    let p = codec::place(job.index, 1);
    LoopId(item_at(job.bytes, p, k))
}

// Where field f of a loop stands, if the loop is there.
pub fn loop_field(job: Indexed, l: LoopId, f: u32) -> Option<usize>
    requires { SpecIndexed job.bytes.now job.index.now }
    ensures { result ≡ row_place job.entry.bytes.now job.entry.index.now 0 8 7 l.0 f }
{
    row_place(job, 0, 8, 7, l.0, f)
}

pub fn loop_parent(job: Indexed, l: LoopId) -> Option<u32>
    requires { SpecIndexed job.bytes.now job.index.now }
    ensures { result ≡ (loop_of (job_of job.entry.bytes.now) l.0).parent }
{
    let p = loop_field(job, l, 0)?;
    number_at(job.bytes, p)
}

pub fn trigger(job: Indexed, l: LoopId) -> Stretch
    requires { SpecIndexed job.bytes.now job.index.now }
    ensures { Holds job.entry.bytes.now result (loop_of (job_of job.entry.bytes.now) l.0).trigger }
{
    let Some(p) = loop_field(job, l, 1) else {
        return Stretch { start: 0, len: 0 };
    };
    stretch_at(job.bytes, p)
}

pub fn occurrence_count(job: Indexed, l: LoopId) -> u32
    requires { SpecIndexed job.bytes.now job.index.now }
    ensures { result ≡ length (loop_of (job_of job.entry.bytes.now) l.0).occurrences }
{
    let Some(p) = loop_field(job, l, 2) else {
        return 0;
    };
    codec::num_in(job.bytes, p) as u32
}

// The identifier of segment k of a loop, empty past its last.
pub fn occurrence(job: Indexed, l: LoopId, k: u32) -> Stretch
    requires { SpecIndexed job.bytes.now job.index.now }
    ensures { Holds job.entry.bytes.now result (get_or (loop_of (job_of job.entry.bytes.now) l.0).occurrences k []) }
{
    let Some(p) = loop_field(job, l, 2) else {
        return Stretch { start: 0, len: 0 };
    };
    let n = codec::num_in(job.bytes, p);
    if n <= k as usize {
        return Stretch { start: 0, len: 0 };
    }
    let q = string_at(spec_of(job.bytes), p, k);
    stretch_at(job.bytes, q)
}

pub fn required(job: Indexed, l: LoopId) -> bool
    requires { SpecIndexed job.bytes.now job.index.now }
    ensures { result ≡ is_required (loop_of (job_of job.entry.bytes.now) l.0).usage }
{
    let Some(p) = loop_field(job, l, 3) else {
        return true;
    };
    !flag_at(job.bytes, p)
}

pub fn loop_end(job: Indexed, l: LoopId) -> Option<Stretch>
    requires { SpecIndexed job.bytes.now job.index.now }
    ensures { HoldsText job.entry.bytes.now result (loop_of (job_of job.entry.bytes.now) l.0).end }
{
    let p = loop_field(job, l, 4)?;
    text_at(job.bytes, p)
}

pub fn control(job: Indexed, l: LoopId) -> Option<ControlRule>
    requires { SpecIndexed job.bytes.now job.index.now }
    ensures { control_of result ≡ (loop_of (job_of job.entry.bytes.now) l.0).control }
{
    let p = loop_field(job, l, 5)?;
    control_at(job.bytes, p)
}

pub fn child_count(job: Indexed, l: LoopId) -> u32
    requires { SpecIndexed job.bytes.now job.index.now }
    ensures { result ≡ length (loop_of (job_of job.entry.bytes.now) l.0).children }
{
    let Some(p) = loop_field(job, l, 6) else {
        return 0;
    };
    codec::num_in(job.bytes, p) as u32
}

pub fn child(job: Indexed, l: LoopId, k: u32) -> LoopId
    requires { SpecIndexed job.bytes.now job.index.now }
    ensures { result.0 ≡ get_or (loop_of (job_of job.entry.bytes.now) l.0).children k 0 }
{
    let Some(p) = loop_field(job, l, 6) else {
        return LoopId(0);
    };
    LoopId(item_at(job.bytes, p, k))
}
