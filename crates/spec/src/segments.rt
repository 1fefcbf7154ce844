// The segment map of the spec: definitions of segments, elements and components.
ghost use Rattle.std.specs.Prelude.{ℕ, ◌+◌, ◌<◌, ◌≤◌, ◌≡◌, List, length, eqb, Option, Some};
ghost use Rattle.codec.specs.Skip.{Is};
ghost use Rattle.codec.specs.Field.{Stands};
ghost use Rattle.codec.specs.Forms.{bytes_c};
ghost use Rattle.codec.specs.Maps.{num_map_c};
ghost use Rattle.format.specs.Spec.{ElementDef, element_c, ComponentDef, component_c, segment_c};
ghost use Rattle.format.specs.Sections.{job_of, plan_start};
ghost use Rattle.format.specs.Ask.{found, same_bytes, segment_def, element_def, max_of, min_of};
ghost use Rattle.spec.specs.Answers.{stretch_of};
ghost use Rattle.spec.specs.Segments.{SegmentsIndexed};
ghost use Rattle.spec.specs.Found.{PlaceOf, max_in, Sized, ElementAt};

use crate::Indexed;
use crate::ids::Stretch;
use crate::read::{number_at, spec_of, stretch_at};
use codec::{Form, Section};
use format::{Component, Element, Kind, sizes_end};

// Whether a stretch holds the byte string that stands at p.
pub fn key_is(b: &[u8], s: Stretch, p: usize) -> bool
    requires { (s.start + s.len ≤ length b.now) × Stands bytes_c b.now p }
    ensures { (e : ℕ) (k : List ℕ) → e ≤ length b.now → Is bytes_c b.now e p k → result ≡ same_bytes (stretch_of b.now s) k }
{
    let key = stretch_at(b, p);
    &b[s.start..s.start + s.len] == &b[key.start..key.start + key.len]
}

// Where the definition of a number stands in the map of elements or components at a place. The map is gone through one by one: its entries differ in
// width, so that where the middle one stands isn't known.
pub fn map_place<F: Form>(s: Section, at: usize, number: u32) -> Option<usize>
    requires { at < 4294967296 }
    ensures { (xs : List (ℕ × F.Value)) → Is (num_map_c F.codec) s.entry.bytes.now s.entry.end at xs → PlaceOf F.codec s.entry.bytes.now s.entry.end result (found (eqb number) xs) }
{
    let n = s.count_at(at);
    let mut p = at + 4;
    for _k in 0..n {
        let key = s.count_at(p);
        let value = s.le_at(4, p);
        if key == number as usize {
            return Some(value);
        }
        p = F::ends_at(s, value);
    }
    None
}

// Where the elements of a segment stand.
pub fn elements_of(job: Indexed, identifier: Stretch) -> Option<usize>
    requires { SegmentsIndexed job.bytes.now job.index.now × (identifier.start + identifier.len ≤ length job.bytes.now) }
    ensures { PlaceOf segment_c job.entry.bytes.now (plan_start job.entry.bytes.now) result (segment_def (job_of job.entry.bytes.now) (stretch_of job.entry.bytes.now identifier)) }
{
    let m = codec::place(job.index, 4096);
    let n = codec::num_in(job.bytes, m);
    for k in 0..n {
        let p = codec::place(job.index, 4097 + k);
        if key_is(job.bytes, identifier, p) {
            return Some(p + 4 + codec::num_in(job.bytes, p));
        }
    }
    None
}

// Where the definition of an element of a segment stands.
pub fn element_of(job: Indexed, identifier: Stretch, element: u32) -> Option<usize>
    requires { SegmentsIndexed job.bytes.now job.index.now × (identifier.start + identifier.len ≤ length job.bytes.now) }
    ensures { PlaceOf element_c job.entry.bytes.now (plan_start job.entry.bytes.now) result (element_def (job_of job.entry.bytes.now) (stretch_of job.entry.bytes.now identifier) element) }
{
    let at = elements_of(job, identifier)?;
    let s = spec_of(job.bytes);
    map_place::<Element>(s, at, element)
}

pub fn element_min(s: Section, at: usize) -> Option<u32>
    requires { Sized s.bytes.now s.end at }
    ensures { (d : ElementDef) → Is element_c s.entry.bytes.now s.entry.end at d → result ≡ d.min }
{
    let min = Kind::ends_at(s, at);
    number_at(s.bytes, min)
}

// The most that the element or the component at a place takes: both begin with the same fields.
pub fn max_at(s: Section, at: usize) -> Option<u32>
    requires { Sized s.bytes.now s.end at }
    ensures element { (d : ElementDef) → Is element_c s.entry.bytes.now s.entry.end at d → result ≡ d.max }
    ensures component { (d : ComponentDef) → Is component_c s.entry.bytes.now s.entry.end at d → result ≡ d.max }
{
    let min = Kind::ends_at(s, at);
    let max = s.opt_num_at(min);
    number_at(s.bytes, max)
}

// The most that a component of the element at a place takes.
pub fn max_of_component(s: Section, at: usize, component: u32) -> Option<u32>
    requires { ElementAt s.bytes.now s.end at }
    ensures { (d : ElementDef) → Is element_c s.entry.bytes.now s.entry.end at d → result ≡ max_in d (Some component) }
{
    let components = sizes_end(s, at);
    let place = map_place::<Component>(s, components, component)?;
    max_at(s, place)
}

// The most that the element at a place takes, or its component.
pub fn max_in(s: Section, at: usize, component: Option<u32>) -> Option<u32>
    requires { ElementAt s.bytes.now s.end at }
    ensures { (d : ElementDef) → Is element_c s.entry.bytes.now s.entry.end at d → result ≡ max_in d component }
{
    match component {
        None => max_at(s, at),
        Some(c) => max_of_component(s, at, c),
    }
}

pub fn max_of(
    job: Indexed,
    identifier: Stretch,
    element: u32,
    component: Option<u32>,
) -> Option<u32>
    requires { SegmentsIndexed job.bytes.now job.index.now × (identifier.start + identifier.len ≤ length job.bytes.now) }
    ensures { result ≡ max_of (job_of job.entry.bytes.now) (stretch_of job.entry.bytes.now identifier) element component }
{
    let at = element_of(job, identifier, element)?;
    let s = spec_of(job.bytes);
    max_in(s, at, component)
}

pub fn min_of(job: Indexed, identifier: Stretch, element: u32) -> Option<u32>
    requires { SegmentsIndexed job.bytes.now job.index.now × (identifier.start + identifier.len ≤ length job.bytes.now) }
    ensures { result ≡ min_of (job_of job.entry.bytes.now) (stretch_of job.entry.bytes.now identifier) element }
{
    let at = element_of(job, identifier, element)?;
    let s = spec_of(job.bytes);
    element_min(s, at)
}
