// Places in the spec's maps. Each function tells whether whatever stands at a place has one below 1.
ghost use Rattle.codec.specs.Codec.{◌⊗◌, list_c};
ghost use Rattle.codec.specs.Forms.{bytes_c, num_c};
ghost use Rattle.codec.specs.Limits.{any_of};
ghost use Rattle.format.specs.Spec.{component_c, element_c, segment_c};
ghost use Rattle.says.specs.Says.{Says};
ghost use Rattle.codes.specs.Maps.{low_component, low_element, low_segment};

use crate::rules::low_at;
use codec::forms::{Bytes, Le, NumMap};
use codec::{Form, Section};
use format::{Component, Element};

fn component_low(s: Section, at: usize) -> bool
    ensures { Says (num_c ⊗ component_c) s.entry.bytes.now s.entry.end at low_component result }
{
    low_at(s, at)
}

fn components_low(s: Section, at: usize) -> bool
    ensures { Says (list_c (num_c ⊗ component_c)) s.entry.bytes.now s.entry.end at (any_of low_component) result }
{
    says::lists::any_at::<(Le<4>, Component), _>(s, at, |p| component_low(s, p))
}

fn element_low(s: Section, at: usize) -> bool
    ensures { Says (num_c ⊗ element_c) s.entry.bytes.now s.entry.end at low_element result }
{
    let value = s.le_at(4, at);
    let max = format::sizes_end(s, value);
    low_at(s, at) || components_low(s, max)
}

fn elements_low(s: Section, at: usize) -> bool
    ensures { Says (list_c (num_c ⊗ element_c)) s.entry.bytes.now s.entry.end at (any_of low_element) result }
{
    says::lists::any_at::<(Le<4>, Element), _>(s, at, |p| element_low(s, p))
}

fn segment_low(s: Section, at: usize) -> bool
    ensures { Says (bytes_c ⊗ segment_c) s.entry.bytes.now s.entry.end at low_segment result }
{
    let value = s.bytes_at(at);
    elements_low(s, value)
}

pub fn segments_low(s: Section, at: usize) -> bool
    ensures { Says (list_c (bytes_c ⊗ segment_c)) s.entry.bytes.now s.entry.end at (any_of low_segment) result }
{
    says::lists::any_at::<(Bytes, NumMap<Element>), _>(s, at, |p| segment_low(s, p))
}
