// Where rows hang, for a program.
ghost use Rattle.std.specs.Prelude.{◌≡◌};
ghost use Rattle.format.specs.Refusal.{refusal_of};
ghost use Rattle.hanging.specs.Nesting.{nest_lent};

/// Where each row hangs (docs/RULES.md, "Nesting"). Gives 0, or the refusal of the job, 1 to 5, which leaves the list as it was.
///
/// `nest` gets three numbers a row, the rows of table 0 first, then those of table 1 and so on: the row that it hangs on plus one, or 0 where it hangs on
/// none; the loop of the anchor that a repeat row goes by, else 0; the table of the row that it hangs on, or 0. Numbers that find no room are left out,
/// and the list is untouched behind the last; 12,288 numbers take every job (4,096 rows).
///
/// C: `uint32_t baktuven_nest(const uint8_t *job, size_t job_length, uint32_t *nest, size_t nest_length);` where `nest_length` counts numbers.
#[unsafe(no_mangle)]
pub extern "C" fn baktuven_nest(job: &[u8], nest: &mut [u32]) -> u32
    ensures value { result ≡ refusal_of job.now }
    ensures nest_after { nest.new ≡ nest_lent job.now nest.old }
{
    match hanging::hang(job, nest) {
        Ok(()) => 0,
        Err(refusal) => refusal.number(),
    }
}
