// Where each row of a job hangs, for a caller that lends a list.
#![tactic(auto)]

ghost use Rattle.std.specs.Prelude.{◌≡◌, ◌≤◌, length};
ghost use Rattle.std.proofs.lemmas.List.Edits.{sets};
ghost use Rattle.nest.specs.Nest.{nest_array};
ghost use Rattle.refusal.specs.Answer.{number_of};
ghost use Rattle.format.specs.Refusal.{refusal_of};
ghost use Rattle.hanging.specs.Nesting.{nest_lent};
ghost use Rattle.nest.specs.Job.{outline_by};

use nest::Job;
use refusal::Refusal;
use spec::Indexed;
use spec::ids::TableId;

// How many numbers nest has for a job, three a row.
fn nest_count(job: Job) -> usize
    ensures { (result ≡ length (nest_array (outline_by job.entry))) × (result ≤ 12288) }
{
    let tables = tables::data::data_count(job.at);
    let rows = tables::data::first_row(job.at, TableId(tables));
    rows as usize * 3
}

// Nest with a list of any length.
fn nested(job: Job, nest: &mut [u32])
    ensures { nest.new ≡ sets nest.old 0 (nest_array (outline_by job.entry)) }
{
    let mut all = [0u32; 12288];
    nest::rows::nest_rows(job, &mut all);
    let count = nest_count(job);
    lent::put_stretch(nest, 0, &all, 0, count);
}

/// Where each row hangs (docs/RULES.md, "Nesting"). A job that a refusal from 1 to 5 applies to leaves the list as it was, and the refusal is the error.
///
/// `nest` gets three numbers a row, the rows of table 0 first, then those of table 1 and so on: the row that it hangs on plus one, or 0 where it hangs on
/// none; the loop of the anchor that a repeat row goes by, else 0; the table of the row that it hangs on, or 0. Numbers that find no room are left out,
/// and the list is untouched behind the last; 12,288 numbers take every job (4,096 rows).
pub fn hang(job: &[u8], nest: &mut [u32]) -> Result<(), Refusal>
    ensures value { number_of result ≡ refusal_of job.now }
    ensures nest_after { nest.new ≡ nest_lent job.now nest.old }
{
    refusal::check(job)?;
    let mut index = [0u16; 10752];
    index::fill_index(job, &mut index);
    nested(
        Job {
            at: Indexed {
                bytes: job,
                index: &index,
            },
        },
        nest,
    );
    Ok(())
}
