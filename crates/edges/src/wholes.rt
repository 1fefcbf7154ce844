// Whole numbers of 64 bits, signed and not.
use std::io;
use texts::number::{count_text, from_bits64, int_text};

pub(crate) const ROWS: [u64; 15] = [
    0x0,
    0x1,
    0x9,
    0xa,
    0x63,
    0x64,
    0x3039,
    0xde0b6b3a7640000,
    0x7fffffffffffffff,
    0x8000000000000000,
    0x8000000000000001,
    0x8ac7230489e7ffff,
    0x8ac7230489e80000,
    0xfffffffffffffff6,
    0xffffffffffffffff,
];

pub(crate) fn row(rt: &impl Print, bits: u64) -> io::Result<()> {
    let signed = int_text(from_bits64(bits));
    let count = count_text(bits);
    println!(rt; "signed {bits:016x} : {signed}")?;
    println!(rt; "count {bits:016x} : {count}")
}
