// The writer for a caller: a job's document, segments, findings and stops, in lists that the caller lends.
#![tactic(auto)]

ghost use Rattle.std.specs.Prelude.{◌≡◌, ◌+◌, ◌≤◌, ◌<◌, min, length};
ghost use Rattle.std.proofs.lemmas.List.Edits.{sets};
ghost use Rattle.finding.specs.Records.{findings_in};
ghost use Rattle.writer.specs.Wrote.{WroteFrom, window_from};
ghost use Rattle.baktuven.specs.Wrote.{Wrote, in_places};
ghost use Rattle.baktuven.specs.Windows.{blank, records_of, behind};
ghost use Rattle.baktuven.specs.Empty.{no_findings};

use finding::{Finding, append_all};
use writer::Answer;

// The writer's answer and its first window of findings, 64 records.
#[derive(Clone, Copy)]
struct Front {
    answer: Answer,
    window: [u64; 640],
}

fn first(
    job: &[u8],
    document: &mut [u8],
    segments: &mut [u64],
    stops: &mut [u64],
    room: usize,
) -> Front
    ensures { WroteFrom job.now document.old document.new segments.old segments.new blank result.window stops.old stops.new 0 room result.answer }
{
    let mut window = [0u64; 640];
    let answer = writer::window(job, document, segments, &mut window, stops, 0, room);
    Front { answer, window }
}

// A later window, from finding number `from` on.
fn later(job: &[u8], from: usize) -> [u64; 640]
    ensures { result ≡ window_from job.now from blank }
{
    let mut window = [0u64; 640];
    writer::later(job, &mut window, from);
    window
}

// How many of n findings one window holds.
fn in_window(n: usize) -> usize
    ensures { result ≡ min n 64 }
{
    n.min(64)
}

// The first `left` records of a window, from place `at` on, as far as they fit.
fn store(findings: &mut [Finding], window: [u64; 640], at: usize, left: usize)
    requires { at + left < 9223372036854775808 }
    ensures { findings.new ≡ sets findings.old at (findings_in window 0 left) }
{
    append_all(findings, &window, at, 0, left);
}

// The findings behind the first window, below number `end`: the job is walked again for each window.
fn rest(job: &[u8], findings: &mut [Finding], end: usize)
    requires { (end ≤ length findings.old) × (end ≤ length (records_of job.now)) }
    ensures { findings.new ≡ sets findings.old 64 (behind 64 end (records_of job.now)) }
{
    for w in 1..end.div_ceil(64) {
        let from = w * 64;
        store(findings, later(job, from), from, in_window(end - from));
    }
}

// All findings: the first window's, then those behind it.
fn noted(job: &[u8], findings: &mut [Finding], window: [u64; 640], found: usize)
    requires { (window ≡ window_from job.now 0 blank) × (found ≡ length (records_of job.now)) }
    ensures { findings.new ≡ in_places (records_of job.now) findings.old }
{
    store(findings, window, 0, in_window(found));
    rest(job, findings, found.min(findings.len()));
}

/// Writes a job into four lists that the caller lends: its document, its segments, what is wrong in it, and the rows that the walk entered. Takes any
/// bytes as the job and lists of any length (docs/RULES.md, "A job", "Answers" and "What a call tells").
///
/// - `document`: the document's bytes.
/// - `segments`: three numbers a segment: its first trace entry; the table of its row plus one; the row. Both are 0 where it comes from the envelope.
/// - `findings`: a record a finding, first those on keys and references, then those of the walk.
/// - `stops`: three numbers a stop, a row that the walk entered: loop, table, row.
///
/// The answer is `Ok` with how many items each list has where the job is finished: the lists hold them at the front, and are untouched behind them. On
/// `Refused::Job` (1 to 5) and `Refused::Instances` (6) all lists are as they were. On `Refused::Room` (7) a list is shorter than its count: each holds as
/// many first items as fit, whole ones only, and is untouched behind them, and the answer has the counts that are needed.
///
/// There is no heap: the call takes up to some 240 KB of stack (docs/BENCHMARKS.md, "Stack"), and walks the job once more for each 64 findings behind the
/// first 64.
pub fn write(
    job: &[u8],
    document: &mut [u8],
    segments: &mut [u64],
    findings: &mut [Finding],
    stops: &mut [u64],
) -> Answer
    ensures { Wrote job.now document.old document.new segments.old segments.new findings.old findings.new stops.old stops.new result }
{
    let front = first(job, document, segments, stops, findings.len());
    noted(job, findings, front.window, writer::found(front.answer));
    front.answer
}

/// What `listed` gives: the answer, and the findings by value.
#[derive(Clone, Copy)]
pub struct Listing {
    /// As `write` answers, where the list of findings has room for 512.
    pub answer: Answer,
    /// The findings at the front, as many as the answer counts, up to 512; behind them, and for a job that is refused by 1 to 6, records of zeros.
    pub findings: [Finding; 512],
}

/// Writes a job as `write` does, with a list of 512 findings of its own, for a caller that has none to lend. More than 512 are refusal 7.
pub fn listed(job: &[u8], document: &mut [u8], segments: &mut [u64], stops: &mut [u64]) -> Listing
    ensures { Wrote job.now document.old document.new segments.old segments.new no_findings result.findings stops.old stops.new result.answer }
{
    let mut findings = [Finding {
        kind: 0,
        values: [0; 9],
    }; 512];
    let answer = write(job, document, segments, &mut findings, stops);
    Listing { answer, findings }
}
