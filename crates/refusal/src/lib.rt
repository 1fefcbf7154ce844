// Whether a job is refused, and with which of the numbers 1 to 5: the lowest that applies. Judged where the job stands.
#![tactic(auto)]

ghost use Rattle.std.specs.Prelude.{◌≡◌};
ghost use Rattle.format.specs.Refusal.{refusal_of};
ghost use Rattle.refusal.specs.Answer.{number, number_of};

/// Why a job is refused before anything of it is written, in the order in which the reasons are tried: where several apply, the first of them is told
/// (docs/RULES.md, "Answers").
#[derive(Clone, Copy, Debug, PartialEq, Eq)]
pub enum Refusal {
    /// Refusal 1: the job is shorter than 24 bytes or longer than 65,536, or its trailer is broken (docs/RULES.md, "Answer 1").
    Size,
    /// Refusal 2: a section of the job isn't the structure that it should be, or has bytes over (docs/RULES.md, "Answer 2").
    Structure,
    /// Refusal 3: the job has more of something than the writer takes, as of loops, tables or rows (docs/RULES.md, "Answer 3" and "Limits").
    Limit,
    /// Refusal 4: the loop numbers don't fit: one is out of range, parents, children and roots make no forest, or an order names a loop that isn't its
    /// child, or one twice (docs/RULES.md, "Answer 4").
    Loops,
    /// Refusal 5: separators that are equal or textual, an identifier, a scale, or a text that isn't ASCII (docs/RULES.md, "Answer 5").
    Text,
}

impl Refusal {
    /// The refusal's number, 1 to 5: `Size` 1, `Structure` 2, `Limit` 3, `Loops` 4, `Text` 5. C callers get it as the answer.
    pub fn number(self) -> u32
        ensures { result ≡ number self }
    {
        match self {
            Refusal::Size => 1,
            Refusal::Structure => 2,
            Refusal::Limit => 3,
            Refusal::Loops => 4,
            Refusal::Text => 5,
        }
    }
}

/// Whether the bytes of a job can be written from: `Ok` where none of the refusals 1 to 5 applies, otherwise the one with the lowest number, each judged
/// over the whole job (docs/RULES.md, "Answers"). Takes any bytes of any length; nothing is changed. Refusals 6 and 7 aren't tried here: 6 needs the walk
/// over the job's rows, 7 the lists that `baktuven::write` is lent.
#[tactic(auto, using(format::proofs::Passed::refused_1, format::proofs::Passed::refused_2, format::proofs::Passed::refused_3, format::proofs::Passed::refused_4, format::proofs::Passed::refused_5, format::proofs::Passed::refused_not))]
pub fn check(job: &[u8]) -> Result<(), Refusal>
    ensures { number_of result ≡ refusal_of job.now }
{
    if format::broken_at(job) {
        return Err(Refusal::Size);
    }
    if format::spoilt_at(job) {
        return Err(Refusal::Structure);
    }
    let Some(parts) = limits::over_at(job) else {
        return Err(Refusal::Limit);
    };
    if loops::tangled_at(job, parts.roots, parts.tables) {
        return Err(Refusal::Loops);
    }
    if marks::unfit_at(job) {
        return Err(Refusal::Text);
    }
    Ok(())
}
