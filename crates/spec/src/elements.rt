// The elements of a segment's definition, one after the other.
ghost use Rattle.std.specs.Prelude.{ℕ, ◌<◌, ◌≤◌, ◌≡◌, ◌∷◌, length};
ghost use Rattle.codec.specs.Skip.{Is};
ghost use Rattle.codec.specs.Field.{Stands};
ghost use Rattle.format.specs.Spec.{Kind, kind_c, ElementDef, element_c, SegmentDef, segment_c};
ghost use Rattle.format.specs.Sections.{plan_start};
ghost use Rattle.spec.specs.Answers.{HoldsText};
ghost use Rattle.spec.specs.Cursor.{Entries, EntryAt, ElementSays, is_numeric, first_of};
ghost use Rattle.spec.specs.Found.{ElementAt};

use crate::ids::{Element, Elements, Stretch};
use crate::read::{spec_of, stretch_at};
use crate::segments::{element_min, max_at};
use codec::forms::NumMap;
use codec::{Form, Section};
use format::Component;

// From where the elements of a segment stand (`elements_of`).
pub fn elements(job: &[u8], at: usize) -> Elements
    requires { Stands segment_c job.now at }
    ensures { (xs : SegmentDef) → Is segment_c job.now (plan_start job.now) at xs → Entries job.now result xs }
{
    let left = codec::num_in(job, at) as u32;
    Elements { left, at: at + 4 }
}

pub fn numeric_at(b: &[u8], at: usize) -> bool
    requires { Stands kind_c b.now at }
    ensures { (e : ℕ) (v : Kind) → Is kind_c b.now e at v → result ≡ is_numeric v }
{
    b[at] == 2
}

// The first code of the element at a place.
pub fn first_code(s: Section, at: usize) -> Option<Stretch>
    requires { ElementAt s.bytes.now s.end at }
    ensures { (d : ElementDef) → Is element_c s.entry.bytes.now s.entry.end at d → HoldsText s.entry.bytes.now result (first_of d.codes) }
{
    let max = format::sizes_end(s, at);
    let codes = NumMap::<Component>::ends_at(s, max);
    let n = codec::num_in(s.bytes, codes);
    if n == 0 {
        return None;
    }
    Some(stretch_at(s.bytes, codes + 4))
}

// The element where the cursor is.
pub fn element(job: &[u8], c: Elements) -> Element
    requires job { (24 ≤ length job.now) × (length job.now ≤ 65536) × (plan_start job.now ≤ length job.now) }
    requires left { EntryAt job.now c }
    ensures { (x : ℕ × ElementDef) (xs : SegmentDef) → Entries job.now c (x ∷ xs) → ElementSays job.now result x }
{
    let at = c.at;
    let s = spec_of(job);
    let number = codec::num_in(job, at) as u32;
    let value = at + 4;
    let numeric = numeric_at(job, value);
    let min = element_min(s, value);
    let max = max_at(s, value);
    let code = first_code(s, value);
    Element {
        number,
        numeric,
        min,
        max,
        code,
    }
}

// Behind the element where the cursor is.
pub fn next_element(job: &[u8], c: Elements) -> Elements
    requires { (24 ≤ length job.now) × (length job.now ≤ 65536) × (0 < c.left) × (plan_start job.now ≤ length job.now) }
    ensures { (x : ℕ × ElementDef) (xs : SegmentDef) → Entries job.now c (x ∷ xs) → Entries job.now result xs }
{
    let at = c.at;
    let left = c.left;
    let s = spec_of(job);
    let value = s.le_at(4, at);
    let next = format::Element::ends_at(s, value);
    Elements {
        left: left - 1,
        at: next,
    }
}
