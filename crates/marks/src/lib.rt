// Refusal 5: separators, identifiers, scales and texts (docs/RULES.md, "Answer 5"). Each function tells whether whatever stands at a place is unfit.
#![tactic(auto)]

ghost use Rattle.std.specs.Prelude.{◌≡◌, false};
ghost use Rattle.codec.specs.Codec.{◌⊗◌, list_c};
ghost use Rattle.codec.specs.Forms.{byte_c, bytes_c, num_c, opt_c};
ghost use Rattle.codec.specs.Skip.{Is, skip};
ghost use Rattle.codec.specs.Limits.{any_of};
ghost use Rattle.format.specs.Words.{between, if_some};
ghost use Rattle.format.specs.Spec.{component_c, element_c, loop_c, segment_c, spec_c, version_c};
ghost use Rattle.format.specs.Refusal.{foreign, textual, unfit, unfit_column, unfit_component, unfit_element, unfit_envelope, unfit_loop, unfit_reference, unfit_segment, unfit_spec, unfit_table_data, unfit_version, unnamed};
ghost use Rattle.format.specs.Data.{column_c, table_data_c};
ghost use Rattle.format.specs.Envelope.{Envelope, envelope_c};
ghost use Rattle.format.specs.Sections.{broken, job_of, spoilt};
ghost use Rattle.says.specs.Says.{Says, Clears};
ghost use Rattle.marks.specs.Parts.{stray, marked, marked_envelope, high};

use codec::forms::{Bytes, Items, Le, NumMap, Opt};
use codec::{Form, Section};
use format::{Column, Component, Control, Element, Loop, Table, TableData, Version};

// ---- bytes and byte strings

// From low to high, both included.
fn within(low: usize, high: usize, c: usize) -> bool
    ensures { result ≡ between low high c }
{
    (low..=high).contains(&c)
}

// A letter, a digit, space, minus or point.
#[tactic(auto, unfolding(format::specs::Refusal::textual, format::specs::Refusal::upper, format::specs::Refusal::digit, codec::specs::Limits::any))]
fn is_textual(c: usize) -> bool
    ensures { result ≡ textual c }
{
    matches!(c, 65..=90 | 97..=122 | 48..=57 | 32 | 45 | 46)
}

// A byte that no identifier has.
fn stray_at(s: Section, at: usize) -> bool
    ensures { Says byte_c s.entry.bytes.now s.entry.end at stray result }
{
    let c = codec::byte_at(s.bytes, at);
    let x = within(65, 90, c);
    let y = within(48, 57, c);
    !(x | y)
}

fn strays_at(s: Section, at: usize) -> bool
    ensures { Says (list_c byte_c) s.entry.bytes.now s.entry.end at (any_of stray) result }
{
    says::lists::any_at::<Le<1>, _>(s, at, |p| stray_at(s, p))
}

// Not 2 or 3 bytes of A to Z, 0 to 9.
fn unnamed_at(s: Section, at: usize) -> bool
    ensures { Says bytes_c s.entry.bytes.now s.entry.end at unnamed result }
{
    let n = s.count_at(at);
    if within(2, 3, n) {
        return strays_at(s, at);
    }
    true
}

fn names_unfit(s: Section, at: usize) -> Option<usize>
    ensures { Clears (list_c bytes_c) s.entry.bytes.now s.entry.end at (any_of unnamed) result }
{
    says::lists::any_clear::<Bytes, _>(s, at, |p| unnamed_at(s, p))
}

fn opt_unnamed_at(s: Section, at: usize) -> bool
    ensures { Says (opt_c bytes_c) s.entry.bytes.now s.entry.end at (if_some unnamed) result }
{
    says::lists::opt_at::<Bytes, _>(s, at, |p| unnamed_at(s, p))
}

fn high_at(s: Section, at: usize) -> bool
    ensures { Says byte_c s.entry.bytes.now s.entry.end at high result }
{
    127 < codec::byte_at(s.bytes, at)
}

// Not ASCII.
fn foreign_at(s: Section, at: usize) -> bool
    ensures { Says bytes_c s.entry.bytes.now s.entry.end at foreign result }
{
    says::lists::any_at::<Le<1>, _>(s, at, |p| high_at(s, p))
}

fn opt_foreign_at(s: Section, at: usize) -> bool
    ensures { Says (opt_c bytes_c) s.entry.bytes.now s.entry.end at (if_some foreign) result }
{
    says::lists::opt_at::<Bytes, _>(s, at, |p| foreign_at(s, p))
}

fn codes_unfit(s: Section, at: usize) -> Option<usize>
    ensures { Clears (list_c bytes_c) s.entry.bytes.now s.entry.end at (any_of foreign) result }
{
    says::lists::any_clear::<Bytes, _>(s, at, |p| foreign_at(s, p))
}

// ---- spec

// The fields one after the other, written out, since each pass over them keeps other places.
fn loop_unfit(s: Section, at: usize) -> Option<usize>
    ensures { Clears loop_c s.entry.bytes.now s.entry.end at unfit_loop result }
{
    let parent = s.opt_num_at(at);
    if unnamed_at(s, parent) {
        return None;
    }
    let trigger = s.bytes_at(parent);
    let occurrences = names_unfit(s, trigger)?;
    let usage = s.case_at(2, occurrences);
    if opt_unnamed_at(s, usage) {
        return None;
    }
    let last = s.opt_bytes_at(usage);
    let control = Opt::<Control>::ends_at(s, last);
    Some(s.les_at(4, control))
}

fn loops_unfit(s: Section, at: usize) -> Option<usize>
    ensures { Clears (list_c loop_c) s.entry.bytes.now s.entry.end at (any_of unfit_loop) result }
{
    says::lists::list_clear::<Loop, _>(s, at, |p| loop_unfit(s, p))
}

fn component_unfit(s: Section, at: usize) -> Option<usize>
    ensures { Clears (num_c ⊗ component_c) s.entry.bytes.now s.entry.end at unfit_component result }
{
    let value = s.le_at(4, at);
    let max = format::sizes_end(s, value);
    codes_unfit(s, max)
}

fn components_unfit(s: Section, at: usize) -> Option<usize>
    ensures { Clears (list_c (num_c ⊗ component_c)) s.entry.bytes.now s.entry.end at (any_of unfit_component) result }
{
    says::lists::list_clear::<(Le<4>, Component), _>(s, at, |p| component_unfit(s, p))
}

fn element_unfit(s: Section, at: usize) -> Option<usize>
    ensures { Clears (num_c ⊗ element_c) s.entry.bytes.now s.entry.end at unfit_element result }
{
    let value = s.le_at(4, at);
    let max = format::sizes_end(s, value);
    let components = components_unfit(s, max)?;
    codes_unfit(s, components)
}

fn elements_unfit(s: Section, at: usize) -> Option<usize>
    ensures { Clears (list_c (num_c ⊗ element_c)) s.entry.bytes.now s.entry.end at (any_of unfit_element) result }
{
    says::lists::list_clear::<(Le<4>, Element), _>(s, at, |p| element_unfit(s, p))
}

fn segment_unfit(s: Section, at: usize) -> Option<usize>
    ensures { Clears (bytes_c ⊗ segment_c) s.entry.bytes.now s.entry.end at unfit_segment result }
{
    if unnamed_at(s, at) {
        return None;
    }
    let value = s.bytes_at(at);
    elements_unfit(s, value)
}

fn segments_unfit(s: Section, at: usize) -> Option<usize>
    ensures { Clears (list_c (bytes_c ⊗ segment_c)) s.entry.bytes.now s.entry.end at (any_of unfit_segment) result }
{
    says::lists::list_clear::<(Bytes, NumMap<Element>), _>(s, at, |p| segment_unfit(s, p))
}

fn version_unfit(s: Section, at: usize) -> bool
    ensures { Says version_c s.entry.bytes.now s.entry.end at unfit_version result }
{
    let segment = s.bytes_at(at);
    let element = s.le_at(4, segment);
    unnamed_at(s, at) | foreign_at(s, element)
}

fn opt_version_unfit(s: Section, at: usize) -> bool
    ensures { Says (opt_c version_c) s.entry.bytes.now s.entry.end at (if_some unfit_version) result }
{
    says::lists::opt_at::<Version, _>(s, at, |p| version_unfit(s, p))
}

fn spec_unfit(s: Section, at: usize) -> Option<usize>
    ensures { Clears spec_c s.entry.bytes.now s.entry.end at unfit_spec result }
{
    let roots = loops_unfit(s, at)?;
    let segments = s.les_at(4, roots);
    let tables = segments_unfit(s, segments)?;
    let version = Items::<Table>::ends_at(s, tables);
    if opt_version_unfit(s, version) {
        return None;
    }
    Some(Opt::<Version>::ends_at(s, version))
}

// ---- envelope

// Two separators are equal, or one is textual.
fn marked(marks: &[usize]) -> bool
    ensures { result ≡ marked marks.now }
{
    for i in 0..marks.len() {
        let c = marks[i];
        if is_textual(c) {
            return true;
        }
        if marks[i + 1..].contains(&c) {
            return true;
        }
    }
    false
}

// The separators, the element's first.
fn marks_unfit(s: Section, at: usize) -> bool
    ensures { (v : Envelope)
        → Is byte_c s.entry.bytes.now s.entry.end at v.element
        → Is byte_c s.entry.bytes.now s.entry.end (skip byte_c s.entry.bytes.now at s.entry.end) v.component
        → Is byte_c s.entry.bytes.now s.entry.end (skip byte_c s.entry.bytes.now (skip byte_c s.entry.bytes.now at s.entry.end) s.entry.end) v.segment
        → Is (opt_c byte_c) s.entry.bytes.now s.entry.end (skip byte_c s.entry.bytes.now (skip byte_c s.entry.bytes.now (skip byte_c s.entry.bytes.now at s.entry.end) s.entry.end) s.entry.end) v.repetition
        → result ≡ marked_envelope v }
{
    let component = s.le_at(1, at);
    let segment = s.le_at(1, component);
    let repetition = s.le_at(1, segment);
    let x = codec::byte_at(s.bytes, at);
    let y = codec::byte_at(s.bytes, component);
    let z = codec::byte_at(s.bytes, segment);
    if s.case(repetition) == Some(1) {
        let w = codec::byte_at(s.bytes, s.le_at(1, repetition));
        return marked(&[x, y, z, w]);
    }
    marked(&[x, y, z])
}

// Written out as `loop_unfit`: the separators, then the strings.
fn envelope_unfit(s: Section, at: usize) -> bool
    ensures { Says envelope_c s.entry.bytes.now s.entry.end at unfit_envelope result }
{
    let sender_qualifier = s.bytes_at(at);
    let sender_id = s.bytes_at(sender_qualifier);
    let receiver_qualifier = s.bytes_at(sender_id);
    let receiver_id = s.bytes_at(receiver_qualifier);
    let application_sender = s.opt_bytes_at(receiver_id);
    let application_receiver = s.opt_bytes_at(application_sender);
    let date = s.le_at(4, application_receiver);
    let time = s.le_at(4, date);
    let usage_indicator = s.bytes_at(time);
    let control_number = s.le_at(8, usage_indicator);
    let separators = marks_unfit(s, control_number);
    let x = foreign_at(s, at);
    let y = foreign_at(s, sender_qualifier);
    let z = foreign_at(s, sender_id);
    let u = foreign_at(s, receiver_qualifier);
    let v = opt_foreign_at(s, receiver_id);
    let w = opt_foreign_at(s, application_sender);
    let t = foreign_at(s, time);
    separators | x | y | z | u | v | w | t
}

// ---- data

// A scale above 38.
fn column_unfit(s: Section, at: usize) -> bool
    ensures { Says column_c s.entry.bytes.now s.entry.end at unfit_column result }
{
    let p = s.le_at(1, at);
    match s.case(at) {
        Some(1) => 38 < codec::byte_at(s.bytes, s.les_at(8, p)),
        Some(2) => 38 < codec::byte_at(s.bytes, s.les_at(16, p)),
        _ => false,
    }
}

fn opt_column_unfit(s: Section, at: usize) -> bool
    ensures { Says (opt_c column_c) s.entry.bytes.now s.entry.end at (if_some unfit_column) result }
{
    says::lists::opt_at::<Column, _>(s, at, |p| column_unfit(s, p))
}

fn columns_unfit(s: Section, at: usize) -> Option<usize>
    ensures { Clears (list_c (opt_c column_c)) s.entry.bytes.now s.entry.end at (any_of (if_some unfit_column)) result }
{
    says::lists::any_clear::<Opt<Column>, _>(s, at, |p| opt_column_unfit(s, p))
}

fn reference_unfit(s: Section, at: usize) -> bool
    ensures { Says (num_c ⊗ opt_c column_c) s.entry.bytes.now s.entry.end at unfit_reference result }
{
    let table = s.le_at(4, at);
    opt_column_unfit(s, table)
}

fn references_unfit(s: Section, at: usize) -> Option<usize>
    ensures { Clears (list_c (num_c ⊗ opt_c column_c)) s.entry.bytes.now s.entry.end at (any_of unfit_reference) result }
{
    says::lists::any_clear::<(Le<4>, Opt<Column>), _>(s, at, |p| reference_unfit(s, p))
}

// Written out as `loop_unfit`.
fn table_data_unfit(s: Section, at: usize) -> Option<usize>
    ensures { Clears table_data_c s.entry.bytes.now s.entry.end at unfit_table_data result }
{
    let rows = s.le_at(4, at);
    if opt_column_unfit(s, rows) {
        return None;
    }
    let row = Opt::<Column>::ends_at(s, rows);
    if opt_column_unfit(s, row) {
        return None;
    }
    let segment = Opt::<Column>::ends_at(s, row);
    let refs = references_unfit(s, segment)?;
    columns_unfit(s, refs)
}

fn data_unfit(s: Section, at: usize) -> Option<usize>
    ensures { Clears (list_c table_data_c) s.entry.bytes.now s.entry.end at (any_of unfit_table_data) result }
{
    says::lists::list_clear::<TableData, _>(s, at, |p| table_data_unfit(s, p))
}

// ---- the whole

// Refusal 5: separators, identifiers, scales and texts.
pub fn unfit_at(b: &[u8]) -> bool
    requires { (broken b.now ≡ false) × (spoilt b.now ≡ false) }
    ensures { result ≡ unfit (job_of b.now) }
{
    let plan = says::start(b, 4);
    let envelope = says::start(b, 12);
    let data = says::start(b, 16);
    let t = says::trailer(b);
    let x = spec_unfit(
        Section {
            bytes: b,
            end: plan,
        },
        0,
    )
    .is_none();
    let y = envelope_unfit(
        Section {
            bytes: b,
            end: data,
        },
        envelope as usize,
    );
    let z = data_unfit(Section { bytes: b, end: t }, data as usize).is_none();
    x | y | z
}
