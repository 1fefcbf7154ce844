// The answers that stand for parts of a plan and of a layout.
use spec::ids::{LoopId, Stretch, TableId};

// Where the instances of a loop come from.
#[derive(Clone, Copy)]
pub enum Instances {
    Absent,
    Envelope,
    Rows(TableId),
    Inside(TableId),
    Groups(TableId),
    Implied,
}

// What fills a planned segment.
#[derive(Clone, Copy)]
pub enum Source {
    Envelope,
    Row(TableId),
    Repeat(TableId),
}

// A planned segment: whether the plan has it, what fills it, which occurrence of its loop it is, how many elements it has and from where on they stand.
// Past the plan's last segment the values are those of `planned_of`, and most callers take them without asking whether the segment is there. Which
// segment it is (`PlannedIs`) is asked by who uses it.
#[derive(Clone, Copy)]
pub struct Planned {
    pub there: bool,
    pub source: Source,
    pub occurrence: u32,
    pub count: u32,
    pub first: usize,
}

// What gives the text of a place.
#[derive(Clone, Copy)]
pub enum ValueSource {
    Column(u32),
    Group(u32),
    Code(Stretch),
}

// A planned element, and the place behind it.
#[derive(Clone, Copy)]
pub struct ElementPlan {
    pub element: u32,
    pub component: Option<u32>,
    pub value: ValueSource,
    pub next: usize,
}

// The order of a loop: how many items it has, and where the first stands.
#[derive(Clone, Copy)]
pub struct Order {
    pub count: u32,
    pub first: usize,
}

// An item of an order: a planned segment of the loop, or a child loop.
#[derive(Clone, Copy, PartialEq, Eq)]
pub enum Item {
    Segment(u32),
    Loop(LoopId),
}
