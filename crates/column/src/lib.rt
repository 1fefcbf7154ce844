// The cells of a job's columns, read where they stand. A reader asks that what it reads stands at the place that it is given, so that all bytes are
// there, and says what its answer is of it; `stretch` reads no byte, and asks a bound alone. A reader of one kind of column also takes the count that
// was read with the kind; `short_cell`, which serves two, takes the kind as well.
#![tactic(auto)]

pub mod bitmap;
pub mod data;
pub mod get;
pub mod laws;
pub mod same;

// A cell: None where there is no answer; bytes as a stretch of the job (start, length); a number by its bits;
// a number of 128 bits (low half, high half, scale); days since 1970; seconds since midnight. A reader passes None on beside Null, and all but the
// `segment` columns then read it as Null (`or_null`). Readers make a cell of whatever stands in the bytes; that a scale is at most 38 is asked where a
// text is made of it.
#[derive(Clone, Copy)]
pub enum Cell {
    None,
    Null,
    Bytes(usize, usize),
    Int(u64),
    Wide(u64, u64, u8),
    Days(u32),
    Seconds(u32),
}
