// Reading a document segment by segment.
ghost use Rattle.std.specs.Prelude.{◌≡◌, ◌+◌, ◌-◌, ◌<◌, ◌≤◌, length, take, drop};
ghost use Rattle.segment.specs.Reader.{run};
ghost use Rattle.segment.specs.Reading.{cut};
ghost use Rattle.segment.specs.ByPlace.{starts_feed, named, segment_at};

use super::Separators;

// What starts at a place of a document.
#[derive(Clone, Copy)]
pub enum SegmentAt {
    // A segment: the place of its terminator, and the place behind it.
    Whole { end: usize, next: usize },
    // The same with an empty identifier.
    Nameless { end: usize, next: usize },
    // Bytes are left with no terminator.
    NoTerminator,
    // A terminator lacks the line feed that is due.
    NoLineFeed,
    // Nothing is left.
    End,
}

// The first place of a byte from `at` on, or the document's end.
pub fn find(document: &[u8], at: usize, b: u8) -> usize
    ensures { result ≡ at + run b (drop at document.now) }
{
    for i in at..document.len() {
        if document[i] == b {
            return i;
        }
    }
    at.max(document.len())
}

// Whether a line feed stands at a place.
fn line_feed_at(document: &[u8], at: usize) -> bool
    ensures { result ≡ starts_feed (drop at document.now) }
{
    at < document.len() && document[at] == b'\n'
}

// A segment from `at` to its terminator at `end`, by whether it has an identifier.
fn with_name(document: &[u8], at: usize, end: usize, next: usize, element: u8) -> SegmentAt
    requires { (at ≤ end) × (end < length document.now) }
    ensures { result ≡ named (cut element (take (end - at) (drop at document.now))).first end next }
{
    if at == end || document[at] == element {
        return SegmentAt::Nameless { end, next };
    }
    SegmentAt::Whole { end, next }
}

// The segment that starts at a place.
pub fn read_segment(document: &[u8], at: usize, s: Separators) -> SegmentAt
    ensures { result ≡ segment_at s document.now at }
{
    if document.len() <= at {
        return SegmentAt::End;
    }
    let end = find(document, at, s.segment);
    if document.len() <= end {
        return SegmentAt::NoTerminator;
    }
    if s.line_break {
        if line_feed_at(document, end + 1) {
            return with_name(document, at, end, end + 2, s.element);
        }
        return SegmentAt::NoLineFeed;
    }
    with_name(document, at, end, end + 1, s.element)
}
