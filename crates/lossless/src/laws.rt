// Laws of the definitions. Each is the contract of a function that does nothing, so that it can't be dropped or weakened unseen.
ghost use Rattle.std.specs.Prelude.{◌≡◌, ℕ, List};
ghost use Rattle.format.specs.Sections.{job_of};
ghost use Rattle.format.specs.Refusal.{refusal_in, refusal_of};
ghost use Rattle.complete.specs.Complete.{CompletePlan};
ghost use Rattle.lossless.specs.NothingLost.{WalkKept};
ghost use Rattle.lossless.specs.ClosersNumber.{ClosersNumber};
ghost use Rattle.lossless.specs.Example.{ExampleReadsBack};
ghost use Rattle.lossless.specs.Sample.{job};

/// Of a job that is not refused by 1 to 5 nothing is lost. `baktuven::write` promises the same of the lists that it fills.
pub fn nothing_lost()
    ensures { (b : List ℕ) → refusal_of b ≡ 0 → WalkKept (job_of b) }
{}

/// A closer tells the number that its loop's last opener took.
pub fn closer_repeats_opener()
    ensures { ClosersNumber }
{}

/// A sample job: its due segments, its document, and what that reads as.
pub fn example_reads_back()
    ensures { ExampleReadsBack }
{}

/// A job with a trigger, a closer, a row segment and a repeat segment that is not refused and whose plan is complete.
pub fn sample_complete()
    ensures { (refusal_in job ≡ 0) × CompletePlan job }
{}
