// Dates of cells and of the envelope, by the days since 1970-01-01.
use crate::shown::both;
use std::io;
use texts::render::{date_text, envelope_date};

// The day and the element's max, 99 for none.
pub(crate) const ROWS: [[i32; 2]; 46] = [
    // docs/RULES.md, "Edge values"
    [0, 8],
    [-719162, 8],
    [-719163, 8],
    [2932896, 8],
    [-7305, 6],
    [-7306, 6],
    [29219, 6],
    [29220, 6],
    // published: BPR16, DTM02 and PLB02 of the first example in X12's guide to the 835 (005010X221)
    [11943, 8],
    [11946, 8],
    [12052, 8],
    // 2005-08-31 in six places
    [13026, 6],
    // leap days and the days where there is none
    [11016, 99],
    [11017, 6],
    [-25509, 8],
    [-25508, 8],
    [47540, 8],
    [47541, 8],
    [-135081, 8],
    [-718008, 8],
    [12477, 6],
    // the first day of the Gregorian calendar, and day 1,000,000,000 / 86,400
    [-141427, 8],
    [11574, 8],
    // published: Meeus, Astronomical Algorithms, chapter 7, by the Julian Day less 2,440,587.5
    [-4472, 8],
    [-25567, 8],
    [-135140, 8],
    [-134775, 8],
    [6235, 8],
    [6378, 8],
    [6600, 8],
    [6744, 8],
    [10592, 8],
    [10957, 8],
    // published: the last second of a signed 32-bit time and its first, 2038-01-19 and 1901-12-13
    [24855, 8],
    [-24856, 8],
    // past the ends: a day more, the year 0, a century before the window, and where the shift overflows
    [2932897, 8],
    [2932897, 6],
    [-719528, 8],
    [-719528, 6],
    [-43829, 6],
    [2146764179, 8],
    [2146764180, 8],
    [2146764180, 6],
    [2147483647, 6],
    [-2147483647, 8],
    [-2147483647, 6],
];

pub(crate) fn row(rt: &impl Print, r: [i32; 2]) -> io::Result<()> {
    both(rt, "date", r, date_text, envelope_date)
}
