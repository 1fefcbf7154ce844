// Decimals.
use std::io;
use texts::number::{Wide, decimal_text};

// The high half, the low half and the scale.
pub(crate) const ROWS: [[u64; 3]; 42] = [
    // docs/RULES.md, "Edge values"
    [0xffffffffffffffff, 0xffffffffffffff6a, 2],
    [0x0, 0x5, 2],
    [0x0, 0x0, 2],
    [0x0, 0x4b0, 2],
    // published: amounts of the first example in X12's guide to the 835 (005010X221): BPR02, CLP03, CLP04, CAS03, TS201, TS204, TS206, PLB04
    [0x0, 0xe4e1c0, 2],
    [0x0, 0x1428539, 2],
    [0x0, 0xd29970, 2],
    [0x0, 0x6febc9, 2],
    [0x0, 0x352f5, 2],
    [0x0, 0x1632, 2],
    [0x0, 0x1a7, 2],
    [0xffffffffffffffff, 0xffffffffffffff81, 2],
    // zeros before, inside and behind a fraction
    [0x0, 0x64, 2],
    [0x0, 0x6e, 2],
    [0x0, 0x3e9, 2],
    [0xffffffffffffffff, 0xfffffffffffffffb, 1],
    [0x0, 0xa, 3],
    [0x0, 0xf4240, 6],
    [0xffffffffffffffff, 0xfffffffffffe7960, 5],
    [0x0, 0x1869f, 5],
    [0x0, 0x7, 0],
    [0xffffffffffffffff, 0xffffffffffffffba, 0],
    // around the end of the low half
    [0x0, 0xffffffffffffffff, 0],
    [0x1, 0x0, 0],
    [0xffffffffffffffff, 0x0, 0],
    [0xffffffffffffffff, 0x1, 0],
    [0xfffffffffffffffe, 0xffffffffffffffff, 0],
    [0x1, 0x0, 19],
    [0x0, 0x8ac7230489e80000, 19],
    [0x5, 0x6bc75e2d63100000, 19],
    [0xfffffffffffffffa, 0x9438a1d29cf00000, 20],
    // the lowest and the highest value
    [0x8000000000000000, 0x0, 0],
    [0x7fffffffffffffff, 0xffffffffffffffff, 0],
    [0x8000000000000000, 0x0, 38],
    [0x7fffffffffffffff, 0xffffffffffffffff, 38],
    [0x8000000000000000, 0x1, 19],
    [0x4b3b4ca85a86c47a, 0x98a224000000000, 38],
    [0x0, 0x1, 38],
    [0xffffffffffffffff, 0xffffffffffffffff, 38],
    [0x0, 0x0, 38],
    // a scale above 38 is taken as 38
    [0x0, 0x1, 39],
    [0x8000000000000000, 0x0, 255],
];

pub(crate) fn row(rt: &impl Print, r: [u64; 3]) -> io::Result<()> {
    let [hi, lo, scale] = r;
    let text = decimal_text(Wide { lo, hi }, (scale % 256) as u8);
    println!(rt; "decimal {hi:016x} {lo:016x} {scale}: {text}")
}
