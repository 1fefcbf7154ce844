// Findings of numbers, one number after the other.
ghost use Rattle.std.specs.Prelude.{ℕ, List, ◌<◌};
ghost use Rattle.lent.specs.Window.{Noted};
ghost use Rattle.nest.specs.Lists.{each};
ghost use Rattle.nest.specs.UpTo.{up_to};
ghost use Rattle.nest.specs.Finding.{Finding};
ghost use Rattle.nest.specs.Ready.{words};
ghost use Rattle.nest.specs.Notes.{NotesAs};

// The findings of all numbers below n, rows or tables: `note` stores those of one number from a place on, and gives the place behind them, where the next
// number's go. What is found is the caller's closure's; the clause is of each function g that gives just what `note` stores. Places end at `lent::more`'s cap.
pub(crate) fn each_below<F: Fn(&mut [u64], usize, u32) -> usize>(
    n: u32,
    findings: &mut [u64],
    at: usize,
    note: F,
) -> usize
    requires { (d : _) (p k : ℕ) → k < n → F.pre note d p k }
    ensures { (g : ℕ → List Finding) → NotesAs (F.post note) g n → Noted findings.old at (words (each g (up_to 0 n))) result findings.new }
{
    let mut next = lent::more(at, 0);
    for k in 0..n {
        next = note(findings, next, k);
    }
    next
}
