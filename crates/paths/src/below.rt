// Tests of the numbers below n, as loops, for the reason in `nest::seek`.
ghost use Rattle.std.specs.Prelude.{ℕ, ◌≡◌, ◌≤◌, ◌<◌, Bool, Option, get_or};
ghost use Rattle.nest.specs.Seek.{AnswersAs};
ghost use Rattle.walk.specs.Check.{each_below, how_many};
ghost use Rattle.paths.specs.Tests.{GivesAs, gives_number};

// Whether each passes, tried from 0 on.
pub fn each<F: Fn(u32) -> bool>(n: u32, passes: F) -> bool
    requires { (k : ℕ) → k < n → F.pre passes k }
    ensures { (p : ℕ → Bool) → AnswersAs (F.post passes) p n → result ≡ each_below n p }
{
    for k in 0..n {
        if !passes(k) {
            return false;
        }
    }
    true
}

// Whether each passes, tried from the last on: the first that doesn't pass ends it, wherever it stands.
pub fn each_from_last<F: Fn(u32) -> bool>(n: u32, passes: F) -> bool
    requires { (k : ℕ) → k < n → F.pre passes k }
    ensures { (p : ℕ → Bool) → AnswersAs (F.post passes) p n → result ≡ each_below n p }
{
    for k in (0..n).rev() {
        if !passes(k) {
            return false;
        }
    }
    true
}

// How many pass.
pub fn how_many<F: Fn(u32) -> bool>(n: u32, passes: F) -> u32
    requires { (k : ℕ) → k < n → F.pre passes k }
    ensures counted { (p : ℕ → Bool) → AnswersAs (F.post passes) p n → result ≡ how_many n p }
    ensures few { result ≤ n }
{
    let mut seen: u32 = 0;
    for k in 0..n {
        if passes(k) {
            seen = seen + 1;
        }
    }
    seen
}

// How often each of the numbers below 32 is given by the numbers below n, in one pass.
pub fn how_often<F: Fn(u32) -> Option<u32>>(n: u32, gives: F) -> [u32; 32]
    requires { (i : ℕ) → i < n → F.pre gives i }
    ensures { (p : ℕ → Option ℕ) → GivesAs (F.post gives) p n → (k : ℕ) → k < 32 → get_or result k 0 ≡ how_many n (λ i. gives_number (p i) k) }
{
    let mut seen = [0u32; 32];
    for i in 0..n {
        if let Some(k) = gives(i) {
            if k < 32 {
                seen[k as usize] += 1;
            }
        }
    }
    seen
}
