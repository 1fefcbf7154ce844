// Searches through numbers, by a test. Written as loops, since the contracts of std's `any` and `find` speak of an iterator's steps, which every proof
// above would have to tell as numbers.
ghost use Rattle.std.specs.Prelude.{ℕ, ◌≡◌, ◌≤◌, ◌<◌, ◌^◌, Bool};
ghost use Rattle.nest.specs.Lists.{keep, first, some_of};
ghost use Rattle.nest.specs.UpTo.{up_to};
ghost use Rattle.nest.specs.Found.{found_by};
ghost use Rattle.nest.specs.Seek.{AnswersAs, Turns, SplitAt};

use spec::ids::RowId;

// The first of the rows from `from` on, below `rows`, that passes.
pub fn first_row_where<F: Fn(usize) -> bool>(from: usize, rows: usize, passes: F) -> Option<RowId>
    requires few { rows < 2 ^ 32 }
    requires callable { (k : ℕ) → k < rows → F.pre passes k }
    ensures { (p : ℕ → Bool) → AnswersAs (F.post passes) p rows → result ≡ found_by (first (keep p (up_to from rows))) }
{
    for k in from..rows {
        if passes(k) {
            return Some(RowId(k as u32));
        }
    }
    None
}

// Whether a number below n passes.
pub fn some<F: Fn(u32) -> bool>(n: u32, passes: F) -> bool
    requires { (k : ℕ) → k < n → F.pre passes k }
    ensures { (p : ℕ → Bool) → AnswersAs (F.post passes) p n → result ≡ some_of p (up_to 0 n) }
{
    for k in 0..n {
        if passes(k) {
            return true;
        }
    }
    false
}

// Where a test turns: the first number from `low` on, below `high`, that doesn't pass, or else `high`. Each turn halves the numbers that are left.
pub fn halve<F: Fn(usize) -> bool>(low: usize, high: usize, passes: F) -> usize
    requires order { low ≤ high }
    requires callable { (k : ℕ) → k < high → F.pre passes k }
    ensures { (p : ℕ → Bool) → AnswersAs (F.post passes) p high → Turns p high → SplitAt p low high result }
{
    let mut from = low;
    let mut to = high;
    // each turn halves what is left
    while from < to {
        let mid = from + (to - from) / 2;
        if passes(mid) {
            from = mid + 1;
        } else {
            to = mid;
        }
    }
    from
}
