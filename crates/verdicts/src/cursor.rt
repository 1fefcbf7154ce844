// Places in a byte string: what is past its end reads as 0 and isn't written.

pub(crate) fn byte(s: &[u8], at: usize) -> u8 {
    s.get(at).copied().unwrap_or(0)
}

pub(crate) fn put(s: &mut [u8], at: usize, value: u8) {
    if let Some(byte) = s.get_mut(at) {
        *byte = value;
    }
}

// a and b together; past any place where there is no such number.
pub(crate) fn plus(a: usize, b: usize) -> usize {
    a.saturating_add(b)
}

// The little-endian number of four bytes.
pub(crate) fn number(s: &[u8], at: usize) -> usize {
    let bytes = [
        byte(s, at),
        byte(s, plus(at, 1)),
        byte(s, plus(at, 2)),
        byte(s, plus(at, 3)),
    ];
    u32::from_le_bytes(bytes) as usize
}

// The n bytes of s from a place on, into t, byte by byte: past an end bytes read as 0 and aren't written.
pub(crate) fn copy(s: &[u8], from: usize, t: &mut [u8], to: usize, n: usize) {
    for k in 0..n {
        put(t, plus(to, k), byte(s, plus(from, k)));
    }
}

// One byte n times.
pub(crate) fn fill(t: &mut [u8], to: usize, n: usize, value: u8) {
    for k in 0..n {
        put(t, plus(to, k), value);
    }
}
