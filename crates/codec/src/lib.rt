// Reading by place: most readers answer the place behind what they read, or one past the end where it is bad. That place is past every end, so a
// reading behind it is bad too, without a test.
#![tactic(auto)]

pub mod forms;
mod section;

ghost use Rattle.std.specs.Prelude.{ℕ, ◌≡◌, ◌+◌, ◌≤◌, ◌<◌, get_or, length, set, map, true, IfSome, Option};
ghost use Rattle.codec.specs.Codec.{le, le_c};
ghost use Rattle.codec.specs.Skip.{skip, Is};
ghost use Rattle.codec.specs.Forms.{num_c, opt_c};
ghost use Rattle.codec.specs.Strings.{less_at, ok_at};
ghost use Rattle.codec.specs.Rows.{stored, small};

pub use forms::Form;
pub use section::Section;

// The byte at a place, 0 past the last, as the definitions read it (`get_or`): a number that is cut short has its bytes by it, without a case.
pub fn byte_at(b: &[u8], at: usize) -> usize
    ensures { (result ≡ get_or b.now at 0) × (result < 256) }
{
    if at < b.len() {
        return b[at] as usize;
    }
    0
}

// The place behind a number of w bytes, or one past `end`; the bytes themselves may end before.
pub fn le_at(b: &[u8], w: u8, at: usize, end: u32) -> usize
    ensures { result ≡ skip (le_c w) b.now at end }
{
    let e = end as usize;
    let n = w as usize;
    if e < at || e < at + n {
        return e + 1;
    }
    at + n
}

// The number in four bytes that are all there, read as an array, for which the slice has its length: read byte by byte, it takes several loads where it
// is multiplied.
pub fn num_in(b: &[u8], at: usize) -> usize
    requires { at + 4 ≤ length b.now }
    ensures { (result ≡ le 4 b.now at) × (result < 4294967296) }
{
    match b[at..at + 4].as_array() {
        Some(bytes) => u32::from_le_bytes(*bytes) as usize,
        None => 0,
    }
}

// The number in the four bytes at a place, those past the last being 0.
pub fn num(b: &[u8], at: usize) -> usize
    requires { at < 1152921504606846976 }
    ensures { (result ≡ le 4 b.now at) × (result < 4294967296) }
{
    if at + 4 <= b.len() {
        return num_in(b, at);
    }
    let b0 = byte_at(b, at);
    let b1 = byte_at(b, at + 1);
    let b2 = byte_at(b, at + 2);
    let b3 = byte_at(b, at + 3);
    b0 + 256 * (b1 + 256 * (b2 + 256 * b3))
}

// An optional number, wherever it stands: bytes past the last are 0.
pub fn opt_num(b: &[u8], at: usize) -> Option<usize>
    requires { at < 4294967296 }
    ensures { (e : ℕ) (v : Option ℕ) → Is (opt_c num_c) b.now e at v → result ≡ v }
{
    if byte_at(b, at) == 0 {
        return None;
    }
    Some(num(b, at + 1))
}

// The number in eight bytes that are all there.
pub fn long_in(b: &[u8], at: usize) -> u64
    requires { at + 8 ≤ length b.now }
    ensures { result ≡ le 8 b.now at }
{
    let low = num_in(b, at) as u64;
    let high = num_in(b, at + 4) as u64;
    low + 4294967296 * high
}

// Whether the byte string at p is before the one at q. The places have a bound so that no sum overflows.
pub fn less_at(b: &[u8], p: usize, q: usize) -> bool
    requires { (p < 8589934592) × (q < 8589934592) }
    ensures { result ≡ less_at b.now p q }
{
    let n = num(b, p);
    let m = num(b, q);
    for k in 0..n.min(m) {
        let x = byte_at(b, p + 4 + k);
        let y = byte_at(b, q + 4 + k);
        if x != y {
            return x < y;
        }
    }
    n < m
}

// Whether the key at p may follow the one before, if there is one.
pub fn follows(b: &[u8], last: Option<usize>, p: usize) -> bool
    requires before { IfSome last (λ q. q < 8589934592) }
    requires place { p < 8589934592 }
    ensures { result ≡ ok_at b.now last p }
{
    match last {
        None => true,
        Some(q) => less_at(b, q, p),
    }
}

// Stores a place, where there is room.
pub fn put(index: &mut [u16], k: usize, p: usize)
    ensures { index.new ≡ set index.old k (small p) }
{
    if k < index.len() {
        index[k] = (p % 65536) as u16;
    }
}

// Stores places one behind the other.
pub fn put_all(index: &mut [u16], k: u32, ps: &[usize])
    ensures { index.new ≡ stored index.old k (map small ps.now) }
{
    for i in 0..ps.len() {
        put(index, k as usize + i, ps[i]);
    }
}

// The number that the index holds at k.
pub fn place_in(index: &[u16], k: usize) -> usize
    requires { k < length index.now }
    ensures { (result ≡ get_or index.now k 0) × (result < 4294967296) }
{
    index[k] as usize
}

// The same where the index may be too short for it: 0 past its last.
pub fn place(index: &[u16], k: usize) -> usize
    ensures { (result ≡ get_or index.now k 0) × (result < 4294967296) }
{
    if k < index.len() {
        return place_in(index, k);
    }
    0
}
