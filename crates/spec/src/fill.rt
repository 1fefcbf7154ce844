// The index is filled: a second pass over a job that passed the refusals 1 to 5.
ghost use Rattle.std.specs.Prelude.{◌≤◌, ◌≡◌, [], ◌∷◌, length};
ghost use Rattle.codec.specs.Codec.{◌⊗◌, list_c};
ghost use Rattle.codec.specs.Forms.{bytes_c};
ghost use Rattle.codec.specs.Skip.{skip, count_at};
ghost use Rattle.codec.specs.Rows.{stored, small};
ghost use Rattle.format.specs.Spec.{loop_c, segment_c, table_c};
ghost use Rattle.format.specs.Sections.{plan_start};
ghost use Rattle.format.specs.Fields.{spec_segments, spec_tables};
ghost use Rattle.format.specs.Passed.{Passed};
ghost use Rattle.spec.specs.EnvelopeIndex.{EnvelopeIndexed, envelope_row};
ghost use Rattle.spec.specs.Filled.{Filled, SpecFilled};
ghost use Rattle.spec.specs.Segments.{SegmentsIndexed};
ghost use Rattle.spec.specs.Kept.{Kept};
ghost use Rattle.spec.specs.Rows.{loop_row, table_row, loop_rows, table_rows, entry_rows};

use crate::read::{section, spec_of, start};
use codec::forms::{Bytes, Items, Le, NumMap, Opt};
use codec::{Form, Section};
use format::{Control, Element, Repeat};

// Stores where the parts of a loop stand. The fields are written out, as those of a table and of the envelope, since each pass over them keeps other
// places.
pub fn loop_into(s: Section, index: &mut [u16], k: u32, at: usize) -> usize
    ensures { (result ≡ skip loop_c s.entry.bytes.now at s.entry.end) × (index.new ≡ stored index.old k (loop_row s.entry.bytes.now s.entry.end at)) }
{
    let trigger = s.opt_num_at(at);
    let occurrences = s.bytes_at(trigger);
    let usage = Items::<Bytes>::ends_at(s, occurrences);
    let last = s.case_at(2, usage);
    let control = s.opt_bytes_at(last);
    let children = Opt::<Control>::ends_at(s, control);
    codec::put_all(
        index,
        k,
        &[at, trigger, occurrences, usage, last, control, children],
    );
    s.les_at(4, children)
}

// Stores where the parts of a table stand.
pub fn table_into(s: Section, index: &mut [u16], k: u32, at: usize) -> usize
    ensures { (result ≡ skip table_c s.entry.bytes.now at s.entry.end) × (index.new ≡ stored index.old k (table_row s.entry.bytes.now s.entry.end at)) }
{
    let segment = s.les_at(4, at);
    let repeat = s.case_at(2, segment);
    let columns = Opt::<Repeat>::ends_at(s, repeat);
    let parent = s.le_at(4, columns);
    let ancestors = s.opt_num_at(parent);
    codec::put_all(index, k, &[at, segment, repeat, columns, parent, ancestors]);
    s.les_at(4, ancestors)
}

// Stores the loops' rows; answers the place behind them.
pub fn loops_into(s: Section, index: &mut [u16]) -> usize
    requires { count_at s.bytes.now 0 s.end ≤ 32 }
    ensures { (result ≡ skip (list_c loop_c) s.entry.bytes.now 0 s.entry.end) × (index.new ≡ stored index.old 8 (loop_rows s.entry.bytes.now s.entry.end 0)) }
{
    let n = s.count_at(0);
    let mut p = s.le_at(4, 0);
    for i in 0..n {
        p = loop_into(s, index, 8 + 7 * i as u32, p);
    }
    p
}

// Stores the tables' rows; answers the place behind them.
pub fn tables_into(s: Section, index: &mut [u16], at: usize) -> usize
    requires { count_at s.bytes.now at s.end ≤ 16 }
    ensures { (result ≡ skip (list_c table_c) s.entry.bytes.now at s.entry.end) × (index.new ≡ stored index.old 232 (table_rows s.entry.bytes.now s.entry.end at)) }
{
    let n = s.count_at(at);
    let mut p = s.le_at(4, at);
    for i in 0..n {
        p = table_into(s, index, 232 + 6 * i as u32, p);
    }
    p
}

// Stores the places of the segments; answers the place behind them.
pub fn entries_into(s: Section, index: &mut [u16], at: usize) -> usize
    requires { count_at s.bytes.now at s.end ≤ 6655 }
    ensures { (result ≡ skip (list_c (bytes_c ⊗ segment_c)) s.entry.bytes.now at s.entry.end) × (index.new ≡ stored index.old 4097 (entry_rows s.entry.bytes.now s.entry.end at)) }
{
    let n = s.count_at(at);
    let mut p = s.le_at(4, at);
    for i in 0..n {
        codec::put(index, 4097 + i, p);
        let value = s.bytes_at(p);
        p = NumMap::<Element>::ends_at(s, value);
    }
    p
}

pub fn heads_into(index: &mut [u16], roots: usize, tables: usize, version: usize)
    ensures { index.new ≡ stored index.old 0 (small 0 ∷ small roots ∷ small tables ∷ small version ∷ []) }
{
    codec::put_all(index, 0, &[0, roots, tables, version]);
}

// The region of the segments, whose list stands at a place; answers the place behind it.
pub fn fill_segments(job: &[u8], index: &mut [u16], at: usize, end: u32) -> usize
    requires { Passed job.now × (end ≡ plan_start job.now) × (at ≡ spec_segments job.now end 0) × (end ≤ length job.now) }
    ensures { (result ≡ spec_tables job.now end 0) × (10752 ≤ length index.old → SegmentsIndexed job.now index.new) × Kept 4096 10752 index.old index.new }
{
    codec::put(index, 4096, at);
    entries_into(Section { bytes: job, end }, index, at)
}

// The regions of the spec and of the segments.
pub fn fill_spec(job: &[u8], index: &mut [u16])
    requires { Passed job.now }
    ensures { SpecFilled job.now index.old index.new }
{
    let s = spec_of(job);
    let roots = loops_into(s, index);
    let segments = s.les_at(4, roots);
    let tables = fill_segments(job, index, segments, s.end);
    let version = tables_into(s, index, tables);
    heads_into(index, roots, tables, version);
}

pub fn envelope_into(s: Section, index: &mut [u16], at: usize)
    ensures { index.new ≡ stored index.old 2560 (envelope_row s.entry.bytes.now s.entry.end at) }
{
    let sender_id = s.bytes_at(at);
    let receiver_qualifier = s.bytes_at(sender_id);
    let receiver_id = s.bytes_at(receiver_qualifier);
    let application_sender = s.bytes_at(receiver_id);
    let application_receiver = s.opt_bytes_at(application_sender);
    let date = s.opt_bytes_at(application_receiver);
    let time = s.le_at(4, date);
    let usage_indicator = s.le_at(4, time);
    let control_number = s.bytes_at(usage_indicator);
    let element = s.le_at(8, control_number);
    let component = s.le_at(1, element);
    let segment = s.le_at(1, component);
    let repetition = s.le_at(1, segment);
    let line_break = Opt::<Le<1>>::ends_at(s, repetition);
    codec::put_all(
        index,
        2560,
        &[
            at,
            sender_id,
            receiver_qualifier,
            receiver_id,
            application_sender,
            application_receiver,
            date,
            time,
            usage_indicator,
            control_number,
            element,
            component,
            segment,
            repetition,
            line_break,
        ],
    );
}

// The region of the envelope.
pub fn fill_envelope(job: &[u8], index: &mut [u16])
    requires { Passed job.now }
    ensures envelope_indexed { 10752 ≤ length index.old → EnvelopeIndexed job.now index.new }
    ensures kept { Kept 2560 2624 index.old index.new }
{
    let at = start(job, 12);
    envelope_into(section(job, 16), index, at as usize);
}

// All three regions.
pub fn fill(job: &[u8], index: &mut [u16])
    requires { Passed job.now }
    ensures { Filled job.now index.old index.new }
{
    fill_spec(job, index);
    fill_envelope(job, index);
}
