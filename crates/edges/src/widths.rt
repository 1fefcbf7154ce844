// Padding of envelope values and control numbers; a bar stands behind each text.
use crate::shown::bound;
use std::io;
use texts::envelope::{Padding, control_padding, pad};

// The length of the text, whether it is a number, the min and the max; 99 for none.
pub(crate) const ROWS: [[usize; 4]; 16] = [
    // elements of the X12 envelope: ISA02, ISA06, ISA08, ISA13, GS02, GS06
    [0, 0, 10, 10],
    [6, 0, 15, 15],
    [15, 0, 15, 15],
    [1, 1, 9, 9],
    [6, 0, 2, 15],
    [1, 1, 1, 9],
    // with and without a width
    [1, 1, 99, 9],
    [1, 1, 4, 99],
    [1, 1, 4, 9],
    [5, 1, 4, 4],
    [0, 1, 3, 3],
    [2, 0, 99, 99],
    [2, 0, 4, 99],
    [2, 0, 4, 9],
    [4, 0, 4, 4],
    [6, 0, 4, 4],
];

pub(crate) fn row(rt: &impl Print, r: [usize; 4]) -> io::Result<()> {
    let [len, numeric, min, max] = r;
    let none = "";
    let text = "123456789012345";
    let Padding { zeros, spaces } = pad(len, numeric == 1, bound(min), bound(max));
    println!(rt; "pad {len} {numeric} {min} {max} : {none:0>zeros$}{text:.len$}{none:spaces$}|")?;
    let front = control_padding(len, bound(min));
    println!(rt; "control: {none:0>front$}{text:.len$}|")
}
