// The last filled element of a repeat segment, and the last filled component of an element.
ghost use Rattle.std.specs.Prelude.{◌≡◌, List, [], ◌∷◌, ℕ, ◌-◌, ◌≤◌, ◌<◌, length};
ghost use Rattle.segment.specs.Parts.{pick, is_empty, highest};
ghost use Rattle.segment.specs.Calls.{zero_free};
ghost use Rattle.plan.specs.Answers.{element_of};
ghost use Rattle.emit.specs.Puts.{part_at};
ghost use Rattle.repeat_segment.specs.Planned.{Of, plans_of};
ghost use Rattle.repeat_segment.specs.Chunk.{parts_in};
ghost use Rattle.repeat_segment.specs.Places.{text_in, element_put, parts_from, parts_of, number_by, all_above};

use crate::chunk::Chunk;
use crate::places;
use crate::planned::Planned;
use emit::signs;
use nest::Job;
use plan::answers::ElementPlan;
use plan::read;
use spec::ids::RowId;

// What counts of a part at element m: its element, or its component if it stands at the element asked for.
fn number_of(m: u32, c: Option<u32>, q: Option<u32>) -> u32
    ensures { (text : List ℕ) → result ≡ number_by q (part_at m c text) }
{
    match q {
        None => m,
        Some(p) => {
            if m == p {
                return signs::component_of(c);
            }
            0
        }
    }
}

fn number_if(job: Job, s: Planned, e: ElementPlan, m: u32, r: RowId, n: u32) -> u32
    requires { Of job.at.bytes.now s }
    ensures { result ≡ pick (is_empty (text_in job.entry.at.bytes.now s m r.0 (element_of job.entry.at.bytes.now e)).text) 0 n }
{
    if n == 0 {
        return 0;
    }
    let w = places::text(job, s, e, m, r);
    let v = w.value;
    if segment::is_empty(job.at.bytes, v) {
        return 0;
    }
    n
}

// For one planned element and one row.
fn highest_at(job: Job, s: Planned, e: ElementPlan, q: Option<u32>, k: u32, r: RowId) -> u32
    requires { Of job.at.bytes.now s × (e.element ≤ 255) × (k < 256) }
    ensures { result ≡ highest (number_by q) (element_put job.entry.at.bytes.now s k r.0 (element_of job.entry.at.bytes.now e)).parts }
{
    let place = places::place_of(e, s.step, k);
    let c = e.component;
    match place {
        None => 0,
        Some(m) => number_if(job, s, e, m, r, number_of(m, c, q)),
    }
}

// For one planned element and some rows.
fn highest_rows(chunk: Chunk, e: ElementPlan, q: Option<u32>, from: u32, to: u32) -> u32
    requires { Of chunk.job.at.bytes.now chunk.segment × (e.element ≤ 255) × (from ≤ to) × (to ≤ length chunk.rows.now) }
    ensures { result ≡ highest (number_by q) (parts_from chunk.entry.job.at.bytes.now chunk.entry.segment chunk.entry.rows.now from (to - from) (element_of chunk.entry.job.at.bytes.now e ∷ [])) }
{
    let mut best: u32 = 0;
    for k in from..to {
        let r = RowId(chunk.rows[k as usize]);
        best = best.max(highest_at(chunk.job, chunk.segment, e, q, k, r));
    }
    best
}

// For one planned element and all rows: with a step one row at most stands at an element.
fn highest_of(chunk: Chunk, e: ElementPlan, q: Option<u32>) -> u32
    requires { Of chunk.job.at.bytes.now chunk.segment × (e.element ≤ 255) }
    ensures { result ≡ highest (number_by q) (parts_from chunk.entry.job.at.bytes.now chunk.entry.segment chunk.entry.rows.now 0 (length chunk.entry.rows.now) (element_of chunk.entry.job.at.bytes.now e ∷ [])) }
{
    let count = chunk.count();
    let step = chunk.segment.step;
    match q {
        None => highest_rows(chunk, e, None, 0, count),
        Some(p) => {
            if step == 0 {
                return highest_rows(chunk, e, Some(p), 0, count);
            }
            let k = places::row_at(e, step, p);
            if count <= k {
                return 0;
            }
            highest_rows(chunk, e, Some(p), k, k + 1)
        }
    }
}

// The last filled element, or the last filled component of the element asked for.
pub fn highest_in(chunk: Chunk, q: Option<u32>) -> u32
    requires { Of chunk.job.at.bytes.now chunk.segment }
    ensures { result ≡ highest (number_by q) (parts_in chunk.entry) }
{
    let s = chunk.segment;
    let mut at = s.first;
    let mut best: u32 = 0;
    for _i in 0..s.count {
        let e = read::element_at(chunk.job.at.bytes, at);
        best = best.max(highest_of(chunk, e, q));
        at = e.next;
    }
    best
}

// Whether every planned element is at 1 or behind.
fn all_above(job: &[u8], s: Planned) -> bool
    requires { Of job.now s }
    ensures { result ≡ all_above (plans_of job.now s) }
{
    let mut at = s.first;
    for _i in 0..s.count {
        let e = read::element_at(job, at);
        if e.element == 0 {
            return false;
        }
        at = e.next;
    }
    true
}

// Whether no part stands at element 0.
pub fn zero_free(job: &[u8], s: Planned, count: u32) -> bool
    requires { Of job.now s }
    ensures { (rows : List ℕ) → result ≡ zero_free (parts_of job.now s rows count) }
{
    if count == 0 {
        return true;
    }
    all_above(job, s)
}
