// The plan check for a program.
ghost use Rattle.std.specs.Prelude.{◌≡◌};
ghost use Rattle.exports.specs.Planning.{plan_number, PlanTold};

use refusal::Refusal;

fn plan_number(answer: Result<bool, Refusal>) -> u32
    ensures { result ≡ plan_number answer }
{
    match answer {
        Ok(true) => 0,
        Ok(false) => 16,
        Err(refusal) => refusal.number(),
    }
}

/// Whether the plan of a job is complete, as `judge::judge` (docs/RULES.md, "A complete plan"): 0 where it is, 16 where it isn't, and the refusal of the
/// job, 1 to 5, where it has one. Of a job with 0 nothing is lost once `baktuven_write` gives 0 too.
///
/// C: `uint32_t baktuven_plan(const uint8_t *job, size_t job_length);`
#[unsafe(no_mangle)]
pub extern "C" fn baktuven_plan(job: &[u8]) -> u32
    ensures { PlanTold job.now result }
{
    plan_number(judge::judge(job))
}
