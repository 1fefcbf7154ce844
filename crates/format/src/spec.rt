// The spec: loops, segments and tables.
ghost use Rattle.std.specs.Prelude.{◌≡◌};
ghost use Rattle.codec.specs.Skip.{skip};
ghost use Rattle.format.specs.Fields.{element_components};
ghost use Rattle.format.specs.Spec.{component_c, control_c, element_c, kind_c, loop_c, repeat_c, spec_c, table_c, version_c, ComponentDef as AComponentDef, Control as AControl, ElementDef as AElementDef, Kind as AKind, Loop as ALoop, Repeat as ARepeat, Spec as ASpec, Table as ATable, Version as AVersion};

use codec::forms::{Bytes, BytesMap, Items, NumMap, Opt};
use codec::{Form, Section};

pub struct Control;

impl Form for Control {
    ghost Value = { AControl };

    ghost codec = { control_c };

    fn ends_at(s: Section, at: usize) -> usize {
        let opener = s.le_at(4, at);
        let closer = s.le_at(4, opener);
        let count = s.le_at(4, closer);
        s.case_at(2, count)
    }
}

pub struct Loop;

// The fields one after the other, written out, since each pass over them keeps other places.
impl Form for Loop {
    ghost Value = { ALoop };

    ghost codec = { loop_c };

    fn ends_at(s: Section, at: usize) -> usize {
        let parent = s.opt_num_at(at);
        let trigger = s.bytes_at(parent);
        let occurrences = Items::<Bytes>::ends_at(s, trigger);
        let usage = s.case_at(2, occurrences);
        let last = s.opt_bytes_at(usage);
        let control = Opt::<Control>::ends_at(s, last);
        s.les_at(4, control)
    }
}

pub struct Kind;

impl Form for Kind {
    ghost Value = { AKind };

    ghost codec = { kind_c };

    fn ends_at(s: Section, at: usize) -> usize {
        match s.case(at) {
            Some(t) if t < 2 => at + 1,
            Some(t) if t < 4 => s.le_at(1, at + 1),
            Some(t) if t < 6 => at + 1,
            _ => s.past(),
        }
    }
}

// Where kind, min and max of an element or a component end.
#[inline(always)]
pub fn sizes_end(s: Section, at: usize) -> usize
    ensures { result ≡ element_components s.entry.bytes.now s.entry.end at }
{
    let kind = Kind::ends_at(s, at);
    let min = s.opt_num_at(kind);
    s.opt_num_at(min)
}

pub struct Component;

impl Form for Component {
    ghost Value = { AComponentDef };

    ghost codec = { component_c };

    #[inline(always)]
    fn ends_at(s: Section, at: usize) -> usize {
        let max = sizes_end(s, at);
        Items::<Bytes>::ends_at(s, max)
    }
}

pub struct Element;

impl Form for Element {
    ghost Value = { AElementDef };

    ghost codec = { element_c };

    #[inline(always)]
    fn ends_at(s: Section, at: usize) -> usize {
        let max = sizes_end(s, at);
        let components = NumMap::<Component>::ends_at(s, max);
        Items::<Bytes>::ends_at(s, components)
    }
}

// The place behind a repeat segment's two numbers, or one past `end`; the bytes themselves may end before.
pub fn repeat_at(b: &[u8], at: usize, end: u32) -> usize
    ensures { result ≡ skip repeat_c b.now at end }
{
    let from = codec::le_at(b, 4, at, end);
    codec::le_at(b, 4, from, end)
}

pub struct Repeat;

impl Form for Repeat {
    ghost Value = { ARepeat };

    ghost codec = { repeat_c };

    fn ends_at(s: Section, at: usize) -> usize {
        repeat_at(s.bytes, at, s.end)
    }
}

pub struct Table;

// The fields one after the other, written out, since each pass over them keeps other places.
impl Form for Table {
    ghost Value = { ATable };

    ghost codec = { table_c };

    fn ends_at(s: Section, at: usize) -> usize {
        let loops = s.les_at(4, at);
        let segment = s.case_at(2, loops);
        let repeat = Opt::<Repeat>::ends_at(s, segment);
        let columns = s.le_at(4, repeat);
        let parent = s.opt_num_at(columns);
        s.les_at(4, parent)
    }
}

pub struct Version;

impl Form for Version {
    ghost Value = { AVersion };

    ghost codec = { version_c };

    fn ends_at(s: Section, at: usize) -> usize {
        let segment = s.bytes_at(at);
        let element = s.le_at(4, segment);
        s.bytes_at(element)
    }
}

pub struct Spec;

impl Form for Spec {
    ghost Value = { ASpec };

    ghost codec = { spec_c };

    fn ends_at(s: Section, at: usize) -> usize {
        let loops = Items::<Loop>::ends_at(s, at);
        let roots = s.les_at(4, loops);
        let segments = BytesMap::<NumMap<Element>>::ends_at(s, roots);
        let tables = Items::<Table>::ends_at(s, segments);
        Opt::<Version>::ends_at(s, tables)
    }
}
