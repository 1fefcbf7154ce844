// The structures of a job, each a form of its own: where it ends, or one past the end where it is bad.
#![tactic(auto)]

pub mod data;
pub mod envelope;
pub mod laws;
pub mod layout;
pub mod plan;
pub mod spec;

ghost use Rattle.std.specs.Prelude.{◌≡◌, ◌≤◌, length, eqb, not, false};
ghost use Rattle.codec.specs.Skip.{skip};
ghost use Rattle.format.specs.Sections.{broken, spoilt};

use codec::forms::Items;
use codec::{Form, Section};
pub use data::{Column, TableData};
pub use envelope::Envelope;
pub use layout::{Item, Layout};
pub use plan::{ElementPlan, Filler, Instances, LoopPlan, SegmentPlan, Source};
pub use spec::{
    Component, Control, Element, Kind, Loop, Repeat, Spec, Table, Version, repeat_at, sizes_end,
};

// ---- trailer and sections

// Refusal 1: the job is too short or too long, or its trailer is broken (docs/RULES.md, "Answer 1").
pub fn broken_at(b: &[u8]) -> bool
    ensures { result ≡ broken b.now }
{
    if b.len() < 24 {
        return true;
    }
    if 65536 < b.len() {
        return true;
    }
    let t = b.len() - 24;
    let spec = codec::num(b, t);
    let plan = codec::num(b, t + 4);
    let layout = codec::num(b, t + 8);
    let envelope = codec::num(b, t + 12);
    let data = codec::num(b, t + 16);
    let whole = codec::num(b, t + 20);
    (spec != 0)
        | (layout < plan)
        | (envelope < layout)
        | (data < envelope)
        | (t < data)
        | (whole != b.len())
}

// Whether what stands from one place up to another is no F.
fn spoils<F: Form>(b: &[u8], at: usize, end: usize) -> bool
    requires { (end ≤ length b.now) × (length b.now ≤ 65536) }
    ensures { result ≡ not (eqb (skip F.codec b.now at end) end) }
{
    let s = Section {
        bytes: b,
        end: end as u32,
    };
    F::ends_at(s, at) != end
}

// Refusal 2: a section is not what its codec reads, or has bytes over (docs/RULES.md, "Answer 2").
pub fn spoilt_at(b: &[u8]) -> bool
    requires { broken b.now ≡ false }
    ensures { result ≡ spoilt b.now }
{
    let t = b.len() - 24;
    let plan = codec::num(b, t + 4);
    let layout = codec::num(b, t + 8);
    let envelope = codec::num(b, t + 12);
    let data = codec::num(b, t + 16);
    let x = spoils::<Spec>(b, 0, plan);
    let y = spoils::<Items<LoopPlan>>(b, plan, layout);
    let z = spoils::<Layout>(b, layout, envelope);
    let v = spoils::<Envelope>(b, envelope, data);
    let w = spoils::<Items<TableData>>(b, data, t);
    x | y | z | v | w
}
