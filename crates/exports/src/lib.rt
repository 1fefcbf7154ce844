// What the static library gives to a program in C or Rust. A slice goes over as two arguments, a pointer to its first item and its length in items (a
// `size_t`); the pointer is aligned to its items and not null, also where the length is 0. A call uses the memory while it runs only, reads the job and
// writes to the lists, which may overlap neither the job nor each other.
#![tactic(auto)]

ghost use Rattle.std.specs.Prelude.{◌≡◌};
ghost use Rattle.std.proofs.lemmas.List.Edits.{sets};
ghost use Rattle.format.specs.Refusal.{refusal_of};

/// `baktuven_nest`: where each row hangs.
pub mod nesting;
/// `baktuven_plan`: whether a plan is complete.
pub mod planning;
/// `baktuven_write`: the writer.
pub mod writing;

// A list at the front of another, as far as it fits.
fn copy_front<T: Copy>(d: &mut [T], source: &[T])
    ensures { d.new ≡ sets d.old 0 source.now }
{
    lent::put_stretch(d, 0, source, 0, source.len());
}

/// Whether a job can be written from, as `refusal::check`: 0, or its refusal, 1 to 5, the lowest that applies (docs/RULES.md, "Answers").
///
/// C: `uint32_t baktuven_check(const uint8_t *job, size_t job_length);`
#[unsafe(no_mangle)]
pub extern "C" fn baktuven_check(job: &[u8]) -> u32
    ensures { result ≡ refusal_of job.now }
{
    match refusal::check(job) {
        Ok(()) => 0,
        Err(refusal) => refusal.number(),
    }
}
