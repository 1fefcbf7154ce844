// Storing into a lent list: everything is counted, and stored as far as it fits. There is no heap: the caller lends the room, and what finds none is
// still counted.
#![tactic(auto)]

ghost use Rattle.std.specs.Prelude.{◌≡◌, [], ◌∷◌, ◌+◌, ◌-◌, ◌≤◌, ◌<◌, min, length, take, drop, replicate};
ghost use Rattle.std.proofs.lemmas.List.Edits.{sets};
ghost use Rattle.lent.specs.Fit.{more, Stored};
ghost use Rattle.lent.specs.Window.{stretch, base, Noted};

// A count goes on by n, up to a cap that no slice's length reaches.
pub fn more(at: usize, n: usize) -> usize
    ensures { result ≡ more at n }
{
    at.saturating_add(n).min(9223372036854775808)
}

// How many of n items fit from `at` on.
pub fn fitting(len: usize, at: usize, n: usize) -> usize
    ensures { result ≡ min n (len - at) }
{
    n.min(len.saturating_sub(at))
}

// How many items of `len` a source has from `start` on.
pub fn stretch_len<T>(source: &[T], start: usize, len: usize) -> usize
    ensures { result ≡ length (stretch source.now start len) }
{
    fitting(source.len(), start, len)
}

// One byte.
pub fn put_byte(d: &mut [u8], at: usize, b: u8) -> usize
    ensures { Stored d.old at (b ∷ []) result d.new }
{
    if at < d.len() {
        d[at] = b;
        return more(at, 1);
    }
    more(at, 1)
}

fn fill(d: &mut [u8], at: usize, b: u8, n: usize)
    requires { n ≤ length d.old - at }
    ensures { d.new ≡ sets d.old at (replicate n b) }
{
    if n > 0 {
        d[at..at + n].fill(b);
    }
}

fn copy<T: Copy>(d: &mut [T], at: usize, source: &[T], start: usize, n: usize)
    requires { (n ≤ length d.old - at) × (n ≤ length source.now - start) }
    ensures { d.new ≡ sets d.old at (take n (drop start source.now)) }
{
    if n > 0 {
        d[at..at + n].copy_from_slice(&source[start..start + n]);
    }
}

// The byte b, n times; none and one, the usual cases, without a loop.
pub fn put_run(d: &mut [u8], at: usize, b: u8, n: usize) -> usize
    ensures { Stored d.old at (replicate n b) result d.new }
{
    if n == 0 {
        return more(at, 0);
    }
    if n == 1 {
        return put_byte(d, at, b);
    }
    let fits = fitting(d.len(), at, n);
    fill(d, at, b, fits);
    more(at, n)
}

// A stretch of another list.
pub fn put_stretch<T: Copy>(d: &mut [T], at: usize, source: &[T], start: usize, len: usize) -> usize
    ensures { Stored d.old at (stretch source.now start len) result d.new }
{
    let n = stretch_len(source, start, len);
    let fits = fitting(d.len(), at, n);
    copy(d, at, source, start, fits);
    more(at, n)
}

// The first `count` numbers of a record, at most ten. Callers make the array where they call: of the three numbers of a stop or a segment, filled up
// with 0, or of the ten of a finding.
pub fn put_words(d: &mut [u64], at: usize, words: [u64; 10], count: usize) -> usize
    ensures { Stored d.old at (take count words) result d.new }
{
    put_stretch(d, at, &words, 0, count)
}

// The place in a window of findings, whose first is 2^62.
pub fn in_window(at: usize) -> usize
    ensures { result ≡ at - base }
{
    at.saturating_sub(4611686018427387904)
}

// The first `count` numbers of a finding, at most ten: those that lie in the window.
pub fn note_words(d: &mut [u64], at: usize, words: [u64; 10], count: usize) -> usize
    ensures { Noted d.old at (take count words) result d.new }
{
    let all = fitting(10, 0, count);
    let before = fitting(4611686018427387904, at, all);
    put_stretch(d, in_window(at), &words, before, count - before);
    more(at, all)
}
