// Control rules. Each function tells whether whatever stands at a place is wrong.
ghost use Rattle.codec.specs.Codec.{list_c};
ghost use Rattle.codec.specs.Forms.{num_c, opt_c};
ghost use Rattle.codec.specs.Limits.{any_of};
ghost use Rattle.format.specs.Words.{if_some};
ghost use Rattle.format.specs.Spec.{control_c, loop_c};
ghost use Rattle.says.specs.Says.{Says};
ghost use Rattle.codes.specs.Rules.{low, wrong_control, wrong_loop};

use codec::forms::{Bytes, Items};
use codec::{Form, Section};
use format::{Control, Loop};

// A number below 1.
pub fn low_at(s: Section, at: usize) -> bool
    ensures { Says num_c s.entry.bytes.now s.entry.end at low result }
{
    s.count_at(at) < 1
}

fn control_wrong(s: Section, at: usize) -> bool
    ensures { Says control_c s.entry.bytes.now s.entry.end at wrong_control result }
{
    let closer = s.le_at(4, at);
    let count = s.le_at(4, closer);
    let x = low_at(s, at);
    let y = low_at(s, closer);
    let z = low_at(s, count);
    let n = s.count_at(closer);
    let m = s.count_at(count);
    x || y || z || n == m
}

fn opt_control_wrong(s: Section, at: usize) -> bool
    ensures { Says (opt_c control_c) s.entry.bytes.now s.entry.end at (if_some wrong_control) result }
{
    says::lists::opt_at::<Control, _>(s, at, |p| control_wrong(s, p))
}

// The fields one after the other, written out, since each pass over them keeps other places.
fn loop_wrong(s: Section, at: usize) -> bool
    ensures { Says loop_c s.entry.bytes.now s.entry.end at wrong_loop result }
{
    let parent = s.opt_num_at(at);
    let trigger = s.bytes_at(parent);
    let occurrences = Items::<Bytes>::ends_at(s, trigger);
    let usage = s.case_at(2, occurrences);
    let last = s.opt_bytes_at(usage);
    opt_control_wrong(s, last)
}

pub fn loops_wrong(s: Section, at: usize) -> bool
    ensures { Says (list_c loop_c) s.entry.bytes.now s.entry.end at (any_of wrong_loop) result }
{
    says::lists::any_at::<Loop, _>(s, at, |p| loop_wrong(s, p))
}
