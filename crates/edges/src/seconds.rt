// Times of cells and of the envelope, by the seconds since midnight.
use crate::shown::both;
use std::io;
use texts::render::{envelope_time, time_text};

// The second and the element's max, 99 for none.
pub(crate) const ROWS: [[i32; 2]; 26] = [
    // docs/RULES.md, "Edge values"
    [0, 99],
    [3661, 99],
    [3661, 4],
    [86399, 99],
    [86400, 99],
    [-1, 99],
    // 14:30 and 23:59, whole minutes in four places
    [52200, 4],
    [52200, 8],
    [86340, 4],
    // seconds alone, and where they find no room
    [59, 6],
    [59, 4],
    [60, 4],
    [43230, 4],
    [43230, 5],
    [43230, 6],
    [86399, 4],
    // published: RFC 3339, section 5.8: 23:20:50, 16:39:57, 12:00:27; the times of day of the seconds 1,000,000,000, 1,234,567,890 and 2,147,483,647 since 1970
    [84050, 99],
    [59997, 99],
    [43227, 99],
    [6400, 99],
    [84690, 99],
    [11647, 99],
    // past the ends
    [86400, 4],
    [-1, 4],
    [2147483647, 8],
    [-2147483647, 8],
];

pub(crate) fn row(rt: &impl Print, r: [i32; 2]) -> io::Result<()> {
    both(rt, "time", r, time_text, envelope_time)
}
