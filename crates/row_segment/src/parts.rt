// The planned elements of a row segment as parts, one after the other.
ghost use Rattle.std.specs.Prelude.{◌≡◌, List, ℕ, ◌<◌};
ghost use Rattle.plan.specs.Answers.{element_of};
ghost use Rattle.plan.specs.Planned.{PlannedIs};
ghost use Rattle.emit.specs.Written.{Writes};
ghost use Rattle.row_segment.specs.Stream.{Lined, Stands, Looks, element_put, look_put, outcome_of};

use emit::cells;
use emit::cells::Written;
use nest::Job;
use plan::answers::{ElementPlan, Planned as PlannedSegment, ValueSource};
use spec::ids::{LoopId, RowId, Stretch, TableId};

// A planned segment of a loop, with its identifier, how many elements it has and from where on they stand, and the row that fills it. That it is the
// job's (`Lined`) is asked by what uses it.
#[derive(Clone, Copy)]
pub struct Line {
    pub l: LoopId,
    pub i: u32,
    pub count: u32,
    pub first: usize,
    pub id: Stretch,
    pub t: TableId,
    pub r: RowId,
}

// What gives a part its text. A `Group` value is no part here (`seen`); in a repeat segment it is a cell.
#[derive(Clone, Copy)]
pub enum Source {
    Cell(u32),
    Code(Stretch),
}

#[derive(Clone, Copy)]
pub struct Planned {
    pub element: u32,
    pub component: Option<u32>,
    pub source: Source,
}

// The next part, if there is one; the number and the place of the planned element behind it. `Sees` says that it looks on from where it stands, `Room`
// that the entries behind it find room.
#[derive(Clone, Copy)]
pub struct Look {
    pub part: Option<Planned>,
    pub k: u32,
    pub at: usize,
}

// The line of planned segment i of a loop, which is s, and a row.
pub fn line_of(job: Job, l: LoopId, i: u32, s: PlannedSegment, t: TableId, r: RowId) -> Line
    requires { (l.0 < 32) × PlannedIs job.at.bytes.now l.0 i s }
    ensures { Lined job.entry.at.bytes.now result × (result.l ≡ l) × (result.i ≡ i) × (result.t ≡ t) × (result.r ≡ r) }
{
    let id = spec::loops::occurrence(job.at, l, s.occurrence);
    Line {
        l,
        i,
        count: s.count,
        first: s.first,
        id,
        t,
        r,
    }
}

// What a planned element tells.
fn told(e: ElementPlan, source: Source) -> Planned
    ensures { result ≡ record { element = e.element; component = e.component; source = source } }
{
    Planned {
        element: e.element,
        component: e.component,
        source,
    }
}

// A planned element as a part; a `Group` value is none.
pub fn seen(e: ElementPlan) -> Option<Planned>
    ensures { (b : List ℕ) (x : Line) → look_put b x result ≡ element_put b x (element_of b e) }
{
    let v = e.value;
    match v {
        ValueSource::Column(c) => Some(told(e, Source::Cell(c))),
        ValueSource::Group(_) => None,
        ValueSource::Code(s) => Some(told(e, Source::Code(s))),
    }
}

// The first part from planned element k on, which stands at a place.
pub fn next_part(job: Job, x: Line, k: u32, at: usize) -> Look
    requires { Lined job.at.bytes.now x × Stands job.at.bytes.now x k at }
    ensures { Looks job.entry.at.bytes.now x k result }
{
    let mut p = at;
    for i in k..x.count {
        let e = plan::read::element_at(job.at.bytes, p);
        p = e.next;
        if let Some(part) = seen(e) {
            return Look {
                part: Some(part),
                k: i + 1,
                at: p,
            };
        }
    }
    Look {
        part: None,
        k: x.count,
        at: p,
    }
}

// The first part of all.
pub fn first_part(job: Job, x: Line) -> Look
    requires { Lined job.at.bytes.now x }
    ensures { Looks job.entry.at.bytes.now x 0 result }
{
    next_part(job, x, 0, x.first)
}

// The text of a part, and the reason why it has none.
pub fn text_of(job: Job, x: Line, p: Planned) -> Written
    requires { Lined job.at.bytes.now x }
    ensures { Writes job.entry.at.bytes.now result (outcome_of job.entry.at.bytes.now x p) }
{
    let id = x.id;
    let t = x.t;
    let r = x.r;
    let component = p.component;
    let source = p.source;
    match source {
        Source::Cell(c) => cells::cell_text(job, id, t, r, p.element, component, c),
        Source::Code(s) => cells::code_text(s),
    }
}
