// Readers by place. All but `string_at` and `start` ask that what they read stands there, and so don't test where the job ends. How long the bytes are
// (24 to 65,536) is asked where a sum or a cast needs it.
ghost use Rattle.std.specs.Prelude.{ℕ, ◌+◌, ◌-◌, ◌*◌, ◌<◌, ◌≤◌, ◌≡◌, List, get_or, length, Option};
ghost use Rattle.codec.specs.Codec.{le, list_c};
ghost use Rattle.codec.specs.Skip.{Is, steps};
ghost use Rattle.codec.specs.Field.{Stands};
ghost use Rattle.codec.specs.Forms.{num_c, byte_c, bytes_c, opt_c};
ghost use Rattle.format.specs.Spec.{Control, control_c, Repeat, repeat_c};
ghost use Rattle.format.specs.Sections.{plan_start};
ghost use Rattle.format.specs.Ask.{on};
ghost use Rattle.spec.specs.Answers.{Holds, HoldsByte, HoldsText, control_of};
ghost use Rattle.spec.specs.Reads.{ByteSays};
ghost use Rattle.spec.specs.Index.{row_place};

use crate::Indexed;
use crate::ids::{ControlRule, Stretch};
use codec::Section;

// Whether a flag is set, or an option holds something: of either, what stands there is the byte 0 if not.
pub fn flag_at(b: &[u8], at: usize) -> bool
    requires { at < length b.now }
    ensures { ByteSays b.now at result }
{
    b[at] != 0
}

pub fn number_at(b: &[u8], at: usize) -> Option<u32>
    requires { Stands (opt_c num_c) b.now at }
    ensures { (e : ℕ) (v : Option ℕ) → Is (opt_c num_c) b.now e at v → result ≡ v }
{
    if !flag_at(b, at) {
        return None;
    }
    Some(codec::num_in(b, at + 1) as u32)
}

// Number k of a list, 0 past its last, as the definition (`get_or`) has it.
pub fn item_at(b: &[u8], at: usize, k: u32) -> u32
    requires { Stands (list_c num_c) b.now at }
    ensures { (e : ℕ) (vs : List ℕ) → Is (list_c num_c) b.now e at vs → result ≡ get_or vs k 0 }
{
    let n = codec::num_in(b, at);
    if n <= k as usize {
        return 0;
    }
    codec::num_in(b, at + 4 + k as usize * 4) as u32
}

pub fn stretch_at(b: &[u8], at: usize) -> Stretch
    requires { Stands bytes_c b.now at }
    ensures { (e : ℕ) (v : List ℕ) → e ≤ length b.now → Is bytes_c b.now e at v → Holds b.now result v }
{
    Stretch {
        start: at + 4,
        len: codec::num_in(b, at),
    }
}

pub fn text_at(b: &[u8], at: usize) -> Option<Stretch>
    requires { Stands (opt_c bytes_c) b.now at }
    ensures { (e : ℕ) (v : Option (List ℕ)) → e ≤ length b.now → Is (opt_c bytes_c) b.now e at v → HoldsText b.now result v }
{
    if !flag_at(b, at) {
        return None;
    }
    Some(stretch_at(b, at + 1))
}

// The step of a repeat segment, 0 where there is none.
pub fn step_at(b: &[u8], at: usize) -> u32
    requires { Stands (opt_c repeat_c) b.now at }
    ensures { (e : ℕ) (v : Option Repeat) → Is (opt_c repeat_c) b.now e at v → result ≡ on v (λ (s : Repeat). s.step) 0 }
{
    if flag_at(b, at) {
        return codec::num_in(b, at + 5) as u32;
    }
    0
}

pub fn control_at(b: &[u8], at: usize) -> Option<ControlRule>
    requires { Stands (opt_c control_c) b.now at }
    ensures { (e : ℕ) (v : Option Control) → Is (opt_c control_c) b.now e at v → control_of result ≡ v }
{
    if !flag_at(b, at) {
        return None;
    }
    Some(ControlRule {
        opener: codec::num_in(b, at + 1) as u32,
        closer: codec::num_in(b, at + 5) as u32,
        count: codec::num_in(b, at + 9) as u32,
        children: flag_at(b, at + 13),
    })
}

// Where byte string k of a list stands.
pub fn string_at(s: Section, at: usize, k: u32) -> usize
    requires { at < 4294967296 }
    ensures { result ≡ steps bytes_c s.entry.bytes.now s.entry.end k (at + 4) }
{
    let mut p = at + 4;
    for _i in 0..k {
        p = s.bytes_at(p);
    }
    p
}

// One of the trailer's numbers: k is its place there.
pub fn start(b: &[u8], k: u8) -> u32
    requires { (24 ≤ length b.now) × (length b.now ≤ 65536) }
    ensures { result ≡ le 4 b.now (length b.now - 24 + k) }
{
    let t = b.len() - 24;
    codec::num(b, t + k as usize) as u32
}

// The bytes up to where one of the trailer's numbers tells.
pub fn section(b: &[u8], k: u8) -> Section<'_>
    requires { (24 ≤ length b.now) × (length b.now ≤ 65536) × (le 4 b.now (length b.now - 24 + k) ≤ length b.now) }
    ensures { (result.bytes.now ≡ b.now) × (result.end ≡ le 4 b.now (length b.now - 24 + k)) }
{
    Section {
        bytes: b,
        end: start(b, k),
    }
}

// The bytes of the spec.
pub fn spec_of(b: &[u8]) -> Section<'_>
    requires { (24 ≤ length b.now) × (length b.now ≤ 65536) × (plan_start b.now ≤ length b.now) }
    ensures { (result.bytes.now ≡ b.now) × (result.end ≡ plan_start b.now) }
{
    section(b, 4)
}

// The place of field f of row i, if the list has the row.
pub fn row_place(job: Indexed, list: u32, from: u32, width: u8, i: u32, f: u32) -> Option<usize>
    requires { get_or job.index.now list 0 + 4 ≤ length job.bytes.now }
    ensures { result ≡ row_place job.entry.bytes.now job.entry.index.now list from width i f }
{
    let p = codec::place(job.index, list as usize);
    if codec::num_in(job.bytes, p) <= i as usize {
        return None;
    }
    Some(codec::place(
        job.index,
        from as usize + i as usize * width as usize + f as usize,
    ))
}

// A byte that may be absent.
pub fn byte_number_at(b: &[u8], at: usize) -> Option<u32>
    requires { Stands (opt_c byte_c) b.now at }
    ensures { (e : ℕ) (v : Option ℕ) → Is (opt_c byte_c) b.now e at v → HoldsByte result v }
{
    if !flag_at(b, at) {
        return None;
    }
    Some(b[at + 1] as u32)
}
