// Tests of lists and options, made where the items stand. A test tells whether something is wrong with what stands at a place. Each function says what it
// answers of a value that stands there, and which places it asked, which also holds where none does.
ghost use Rattle.std.specs.Prelude.{◌≡◌, ◌≢◌, Bool, false, List, ℕ, ◌-◌, ◌<◌, ◌^◌};
ghost use Rattle.codec.specs.Codec.{le_c, list_c};
ghost use Rattle.codec.specs.Forms.{opt_c};
ghost use Rattle.codec.specs.Skip.{count_at, skip, tag_at};
ghost use Rattle.codec.specs.Limits.{any_of};
ghost use Rattle.format.specs.Words.{any_from, if_some};
ghost use Rattle.says.specs.Says.{Says, SaysRest, Tests, TestsBefore, TestsNumbered, Clears, Clearing, any_before, Searched, SearchedTo, Walked};

use codec::{Form, Section};

// Whether some item of a list is found.
pub fn any_at<F: Form, T: Fn(usize) -> bool>(s: Section, at: usize, test: T) -> bool
    requires { T.IsAlwaysCallable test }
    ensures says { (f : F.Value → Bool) → Tests F.codec s.entry.bytes.now s.entry.end (T.post test) f → Says (list_c F.codec) s.entry.bytes.now s.entry.end at (any_of f) result }
    ensures asked { Searched F.codec s.entry.bytes.now s.entry.end (λ k. T.post test) (count_at s.entry.bytes.now at s.entry.end) (skip (le_c 4) s.entry.bytes.now at s.entry.end) result }
{
    any_clear::<F, T>(s, at, test).is_none()
}

// Whether what an option holds is found.
pub fn opt_at<F: Form, T: Fn(usize) -> bool>(s: Section, at: usize, test: T) -> bool
    requires { T.IsAlwaysCallable test }
    ensures says { (f : F.Value → Bool) → Tests F.codec s.entry.bytes.now s.entry.end (T.post test) f → Says (opt_c F.codec) s.entry.bytes.now s.entry.end at (if_some f) result }
    ensures there { tag_at s.entry.bytes.now at s.entry.end ≡ 1 → T.post test (skip (le_c 1) s.entry.bytes.now at s.entry.end) result }
    ensures none { tag_at s.entry.bytes.now at s.entry.end ≢ 1 → result ≡ false }
{
    if s.case(at) == Some(1) {
        return test(s.le_at(1, at));
    }
    false
}

// The place behind a list none of whose items is found: each test tells the place behind its item.
pub fn list_clear<F: Form, T: Fn(usize) -> Option<usize>>(
    s: Section,
    at: usize,
    test: T,
) -> Option<usize>
    requires { T.IsAlwaysCallable test }
    ensures says { (f : F.Value → Bool) → Clearing F.codec s.entry.bytes.now s.entry.end (T.post test) f → Clears (list_c F.codec) s.entry.bytes.now s.entry.end at (any_of f) result }
    ensures asked { Walked (T.post test) (count_at s.entry.bytes.now at s.entry.end) (skip (le_c 4) s.entry.bytes.now at s.entry.end) result }
{
    let n = s.count_at(at);
    let mut p = s.le_at(4, at);
    for _i in 0..n {
        match test(p) {
            None => return None,
            Some(q) => p = q,
        }
    }
    Some(p)
}

// The same by tests that don't tell where their items end.
pub fn any_clear<F: Form, T: Fn(usize) -> bool>(s: Section, at: usize, test: T) -> Option<usize>
    requires { T.IsAlwaysCallable test }
    ensures says { (f : F.Value → Bool) → Tests F.codec s.entry.bytes.now s.entry.end (T.post test) f → Clears (list_c F.codec) s.entry.bytes.now s.entry.end at (any_of f) result }
    ensures asked { SearchedTo F.codec s.entry.bytes.now s.entry.end (λ k. T.post test) (count_at s.entry.bytes.now at s.entry.end) (skip (le_c 4) s.entry.bytes.now at s.entry.end) result }
{
    let n = s.count_at(at);
    let mut p = s.le_at(4, at);
    for _i in 0..n {
        if test(p) {
            return None;
        }
        p = F::ends_at(s, p);
    }
    Some(p)
}

// Whether one of the `rest` items that stand from a place on is found.
pub fn any_rest<F: Form, T: Fn(usize) -> bool>(s: Section, at: usize, rest: usize, test: T) -> bool
    requires { T.IsAlwaysCallable test }
    ensures says { (f : F.Value → Bool) → Tests F.codec s.entry.bytes.now s.entry.end (T.post test) f → SaysRest F.codec s.entry.bytes.now s.entry.end rest at (any_of f) result }
    ensures asked { Searched F.codec s.entry.bytes.now s.entry.end (λ k. T.post test) rest at result }
{
    let mut p = at;
    for _i in 0..rest {
        if test(p) {
            return true;
        }
        p = F::ends_at(s, p);
    }
    false
}

// Whether some item of a list is found, by a test that looks at the items behind it too: it is told where the item stands, how many are behind it, and where they do.
pub fn any_before<F: Form, T: Fn(usize, usize, usize) -> bool>(
    s: Section,
    at: usize,
    test: T,
) -> bool
    requires { T.IsAlwaysCallable test }
    ensures says { (u : List F.Value → F.Value → Bool) → TestsBefore F.codec s.entry.bytes.now s.entry.end (T.post test) u → Says (list_c F.codec) s.entry.bytes.now s.entry.end at (any_before u) result }
    ensures asked { Searched F.codec s.entry.bytes.now s.entry.end (λ k p. T.post test p (count_at s.entry.bytes.now at s.entry.end - k - 1) (skip F.codec s.entry.bytes.now p s.entry.end)) (count_at s.entry.bytes.now at s.entry.end) (skip (le_c 4) s.entry.bytes.now at s.entry.end) result }
{
    let n = s.count_at(at);
    let mut p = s.le_at(4, at);
    for i in 0..n {
        let q = F::ends_at(s, p);
        if test(p, n - i - 1, q) {
            return true;
        }
        p = q;
    }
    false
}

// Whether some item of a list is found, by a test that is told its number too and is asked of no number past the last.
pub fn any_numbered<F: Form, T: Fn(usize, usize) -> bool>(s: Section, at: usize, test: T) -> bool
    requires { (k : ℕ) (p : ℕ) → k < count_at s.bytes.now at s.end → p < 2 ^ 64 → T.pre test k p }
    ensures says { (f : ℕ → F.Value → Bool) → TestsNumbered F.codec s.entry.bytes.now s.entry.end at (T.post test) f → Says (list_c F.codec) s.entry.bytes.now s.entry.end at (any_from f 0) result }
    ensures asked { Searched F.codec s.entry.bytes.now s.entry.end (T.post test) (count_at s.entry.bytes.now at s.entry.end) (skip (le_c 4) s.entry.bytes.now at s.entry.end) result }
{
    let n = s.count_at(at);
    let mut p = s.le_at(4, at);
    for k in 0..n {
        if test(k, p) {
            return true;
        }
        p = F::ends_at(s, p);
    }
    false
}
