// The writer for a program.
ghost use Rattle.std.specs.Prelude.{◌≡◌};
ghost use Rattle.std.proofs.lemmas.List.Edits.{sets};
ghost use Rattle.writer.specs.Answer.{number_of, numbers, values_of};
ghost use Rattle.exports.specs.Writing.{WroteOut};

use crate::copy_front;
use finding::Finding;
use writer::{Answer, Totals};

// Four counts at the front of a list, as far as they fit.
fn put_totals(counts: &mut [u64], totals: Totals)
    ensures { counts.new ≡ sets counts.old 0 (numbers totals) }
{
    let words = [
        totals.bytes as u64,
        totals.segments as u64,
        totals.findings as u64,
        totals.stops as u64,
    ];
    copy_front(counts, &words);
}

// The counts of an answer that has some.
fn put_values(counts: &mut [u64], a: Answer)
    ensures { counts.new ≡ sets counts.old 0 (values_of a) }
{
    if let Some(totals) = writer::totals_of(a) {
        put_totals(counts, totals);
    }
}

// The answer's number (docs/RULES.md, "Answers").
fn number(a: Answer) -> u32
    ensures { result ≡ number_of a }
{
    match a {
        Ok(_) => 0,
        Err(refused) => refused.number(),
    }
}

/// Writes a job into lists that the caller lends, as `baktuven::write` (docs/RULES.md, "Answers" and "What a call tells"). Gives 0 for a finished job, or
/// the refusal, 1 to 7.
///
/// - `document`: bytes.
/// - `segments`: three numbers a segment: its first trace entry; the table of its row plus one; the row. Both are 0 where it comes from the envelope.
/// - `findings`: ten numbers a finding, which are a `Finding`.
/// - `stops`: three numbers a stop: loop, table, row.
/// - `counts`: four numbers: how many bytes, segments, findings and stops there are. A list of fewer than four gets the first of them.
///
/// On 0 the lists hold their items at the front, and are untouched behind them. On 1 to 6 all are as they were, `counts` too. On 7 a list is shorter than
/// its count: `counts` has what is needed, and each other list holds as many first items as fit, whole ones only. `counts` may be of any length itself.
///
/// C: `uint32_t baktuven_write(const uint8_t *job, size_t job_length, uint8_t *document, size_t document_length, uint64_t *segments,
/// size_t segments_length, struct baktuven_finding *findings, size_t findings_length, uint64_t *stops, size_t stops_length, uint64_t *counts,
/// size_t counts_length);` where `struct baktuven_finding` is `{ uint64_t kind; uint64_t values[9]; }`. The lengths of `segments` and `stops` count numbers,
/// three an item, that of `findings` counts findings.
#[unsafe(no_mangle)]
pub extern "C" fn baktuven_write(
    job: &[u8],
    document: &mut [u8],
    segments: &mut [u64],
    findings: &mut [Finding],
    stops: &mut [u64],
    counts: &mut [u64],
) -> u32
    ensures { WroteOut job.now document.old document.new segments.old segments.new
        findings.old findings.new stops.old stops.new counts.old counts.new result }
{
    let a = baktuven::write(job, document, segments, findings, stops);
    put_values(counts, a);
    number(a)
}
