// The first part at a place of a repeat segment, and its text: one pass over the planned elements.
ghost use Rattle.std.specs.Prelude.{◌≡◌, List, [], ℕ, ◌≤◌, ◌<◌, length, get_or, Some};
ghost use Rattle.segment.specs.Values.{value_text};
ghost use Rattle.segment.specs.Calls.{first_at, or_text, repeat_text};
ghost use Rattle.plan.specs.Answers.{element_of};
ghost use Rattle.repeat_segment.specs.Planned.{Of};
ghost use Rattle.repeat_segment.specs.Places.{text_in, parts_of, rank_of, Earlier, found_text};
ghost use Rattle.repeat_segment.specs.Chunk.{parts_in};

use crate::chunk::Chunk;
use crate::places;
use crate::planned::Planned;
use plan::answers::{ElementPlan, ValueSource};
use plan::read;
use segment::Value;
use spec::ids::RowId;

// A planned element and the number of the row for which it stands at a place. Where none is found, the number is the count of the rows:
// any row of the chunk comes before it.
#[derive(Clone, Copy)]
pub struct First {
    pub row: u32,
    pub plan: ElementPlan,
}

fn earlier(f: First, e: ElementPlan, step: u32, p: u32, c: Option<u32>) -> First
    ensures { (b : List ℕ) → Earlier step p (rank_of c) b f e result }
{
    if e.component == c {
        let k = places::row_at(e, step, p);
        if k < f.row {
            return First { row: k, plan: e };
        }
        return f;
    }
    f
}

fn nothing_yet(count: u32) -> First
    ensures { result.row ≡ count }
{
    First {
        row: count,
        plan: ElementPlan {
            element: 0,
            component: None,
            value: ValueSource::Column(0),
            next: 0,
        },
    }
}

// The first part at element p that is at component c, or plain for None: its row number is the lowest, then its planned element the first.
fn first_at(job: &[u8], s: Planned, count: u32, p: u32, c: Option<u32>) -> First
    requires { Of job.now s × (count ≤ 256) }
    ensures { (rows : List ℕ) → first_at p (rank_of c) (parts_of job.now s rows count) ≡ found_text job.now s rows count p result }
{
    let mut f = nothing_yet(count);
    let mut at = s.first;
    for _i in 0..s.count {
        let e = read::element_at(job, at);
        f = earlier(f, e, s.step, p, c);
        at = e.next;
    }
    f
}

fn found_value(chunk: Chunk, p: u32, f: First) -> Value
    requires { Of chunk.job.at.bytes.now chunk.segment × (f.row < length chunk.rows.now) }
    ensures { value_text chunk.entry.job.at.bytes.now result ≡ (text_in chunk.entry.job.at.bytes.now chunk.entry.segment p (get_or chunk.entry.rows.now f.row 0) (element_of chunk.entry.job.at.bytes.now f.plan)).text }
{
    let r = RowId(chunk.rows[f.row as usize]);
    let w = places::text(chunk.job, chunk.segment, f.plan, p, r);
    w.value
}

fn ranked_value(chunk: Chunk, p: u32, c: u32) -> Value
    requires { Of chunk.job.at.bytes.now chunk.segment }
    ensures { value_text chunk.entry.job.at.bytes.now result ≡ or_text (first_at p (rank_of (Some c)) (parts_in chunk.entry)) [] }
{
    let count = chunk.count();
    let f = first_at(chunk.job.at.bytes, chunk.segment, count, p, Some(c));
    if f.row < count {
        return found_value(chunk, p, f);
    }
    segment::held(0, 0)
}

fn first_component(chunk: Chunk, p: u32) -> Value
    requires { Of chunk.job.at.bytes.now chunk.segment }
    ensures { value_text chunk.entry.job.at.bytes.now result ≡ repeat_text (parts_in chunk.entry) p 1 }
{
    let count = chunk.count();
    let f = first_at(chunk.job.at.bytes, chunk.segment, count, p, None);
    if f.row < count {
        return found_value(chunk, p, f);
    }
    ranked_value(chunk, p, 1)
}

// The text of component c of element p.
pub fn component_value(chunk: Chunk, p: u32, c: u32) -> Value
    requires { Of chunk.job.at.bytes.now chunk.segment }
    ensures { value_text chunk.entry.job.at.bytes.now result ≡ repeat_text (parts_in chunk.entry) p c }
{
    if c == 1 {
        return first_component(chunk, p);
    }
    ranked_value(chunk, p, c)
}
