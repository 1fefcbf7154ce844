// The numbers of loops, tables and rows, and the answers that stand for parts of a job.

// A loop's number. It may be any: readers answer for each, and what needs it below 32 asks for that.
#[derive(Clone, Copy, PartialEq, Eq)]
pub struct LoopId(pub u32);

#[derive(Clone, Copy, PartialEq, Eq)]
pub struct TableId(pub u32);

#[derive(Clone, Copy, PartialEq, Eq, PartialOrd, Ord)]
pub struct RowId(pub u32);

// A byte string, where it stands in the job. That it lies within the job is said by whoever reads it.
#[derive(Clone, Copy)]
pub struct Stretch {
    pub start: usize,
    pub len: usize,
}

// The elements of the control number in opener and closer, that of the count, and whether it counts child loops or segments.
#[derive(Clone, Copy)]
pub struct ControlRule {
    pub opener: u32,
    pub closer: u32,
    pub count: u32,
    pub children: bool,
}

// The segment and the element of the version, and the value that comes first.
#[derive(Clone, Copy)]
pub struct VersionRule {
    pub segment: Stretch,
    pub element: u32,
    pub first: Stretch,
}

// What is left of the elements of a segment. The job goes beside it.
#[derive(Clone, Copy)]
pub struct Elements {
    pub left: u32,
    pub at: usize,
}

// An element of a segment: its number, whether it is of kind N, its least and most, and its first code.
#[derive(Clone, Copy)]
pub struct Element {
    pub number: u32,
    pub numeric: bool,
    pub min: Option<u32>,
    pub max: Option<u32>,
    pub code: Option<Stretch>,
}
