// The bytes of a repeat segment: position by position, component by component.
ghost use Rattle.lent.specs.Fit.{Stored};
ghost use Rattle.segment.specs.Parts.{joined, sorted};
ghost use Rattle.segment.specs.Group.{Group};
ghost use Rattle.segment.specs.Calls.{Repeat, repeat_text, last_component_at};
ghost use Rattle.repeat_segment.specs.Planned.{Of};
ghost use Rattle.repeat_segment.specs.Chunk.{parts_in, id_in};

use crate::chunk::Chunk;
use crate::{last, order, scan};
use segment::{Pen, Separators};

// The components of element p up to the last filled.
fn put_position(doc: &mut [u8], chunk: Chunk, sep: Separators, pen: Pen, p: u32) -> Pen
    requires { Of chunk.job.at.bytes.now chunk.segment }
    ensures { Group sep (last_component_at p (parts_in chunk.entry)) (repeat_text (parts_in chunk.entry) p) p 1
        pen doc.old result doc.new }
{
    let last = last::highest_in(chunk, Some(p));
    let value = |c| scan::component_value(chunk, p, c);
    segment::put_components(doc, chunk.job.at.bytes, sep, pen, p as usize, last, value)
}

// All elements up to the last filled, and the segment's end.
fn put_positions(doc: &mut [u8], chunk: Chunk, sep: Separators, pen: Pen, last: u32) -> usize
    requires { Of chunk.job.at.bytes.now chunk.segment }
    ensures { Repeat sep last (parts_in chunk.entry) 1 pen doc.old result doc.new }
{
    let mut t = pen;
    for p in 1..=last {
        t = put_position(doc, chunk, sep, t, p);
    }
    segment::close(doc, sep, t, last as usize)
}

// The segment of any chunk; a part at element 0 keeps all texts out.
fn put_any(doc: &mut [u8], at: usize, chunk: Chunk, sep: Separators) -> usize
    requires { Of chunk.job.at.bytes.now chunk.segment }
    ensures { Stored doc.old at (joined sep (id_in chunk.entry) (sorted (parts_in chunk.entry))) result doc.new }
{
    let last = last::highest_in(chunk, None);
    let id = chunk.segment.id;
    let pen = segment::begin(doc, at, chunk.job.at.bytes, id.start, id.len);
    if last::zero_free(chunk.job.at.bytes, chunk.segment, chunk.count()) {
        return put_positions(doc, chunk, sep, pen, last);
    }
    segment::close(doc, sep, pen, last as usize)
}

// The segment of a chunk: its texts as they come, or position by position.
pub fn put_chunk(doc: &mut [u8], at: usize, chunk: Chunk, sep: Separators) -> usize
    requires { Of chunk.job.at.bytes.now chunk.segment }
    ensures { Stored doc.old at (joined sep (id_in chunk.entry) (sorted (parts_in chunk.entry))) result doc.new }
{
    if order::in_order(chunk.job.at.bytes, chunk.segment, chunk.count()) {
        return order::put_ordered(doc, at, chunk, sep);
    }
    put_any(doc, at, chunk, sep)
}
