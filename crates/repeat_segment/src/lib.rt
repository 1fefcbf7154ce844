// Repeat segments: each row of a chunk fills it, with its findings and trace entries; then the segment is written at once.
#![tactic(auto)]

mod chunk;
mod fill;
mod join;
mod last;
mod order;
mod places;
pub mod planned;
mod scan;

ghost use Rattle.std.specs.Prelude.{◌≡◌, List, ℕ, ◌≤◌, ◌<◌, length};
ghost use Rattle.emit.specs.Fold.{fill_out, chunk_out, first_row};
ghost use Rattle.emit.specs.Did.{row_in, DidCounts, Within};
ghost use Rattle.repeat_segment.specs.Planned.{Of};
ghost use Rattle.nest.specs.Job.{job_by};

use crate::chunk::Chunk;
use crate::planned::Planned;
use emit::state::{Counts, From};
use emit::{signs, state};
use nest::Job;
use spec::ids::{RowId, TableId};

// Row number k of a chunk: the findings on its cells, a trace entry for each.
pub fn fill_row(
    job: Job,
    findings: &mut [u64],
    s: Counts,
    segment: Planned,
    k: u32,
    r: RowId,
) -> Counts
    requires { Within s × Of job.at.bytes.now segment × (k < 256) }
    ensures { (d g p : List ℕ) → DidCounts (fill_out (job_by job.entry) segment.l.0 segment.i segment.table.0 k r.0) s result d d g g findings.old findings.new p p }
{
    let delimiters = signs::delimiters_of(job.at);
    fill::fill_elements(job, findings, s, segment, delimiters, k, r)
}

// What a chunk comes from: its first row.
fn source_of(rows: &[u32], t: TableId) -> From
    ensures { row_in result ≡ first_row t.0 rows.now }
{
    match rows.first() {
        None => From::Envelope,
        Some(r) => From::Row(t, RowId(*r)),
    }
}

// Writes the segment of a chunk, whose rows are `rows`.
pub fn write_chunk(
    job: Job,
    rows: &[u32],
    doc: &mut [u8],
    segments: &mut [u64],
    s: Counts,
    segment: Planned,
) -> Counts
    requires { Within s × Of job.at.bytes.now segment × (length rows.now ≤ 256) }
    ensures { (f p : List ℕ) → DidCounts (chunk_out (job_by job.entry) segment.l.0 segment.i segment.table.0 rows.now) s result
        doc.old doc.new segments.old segments.new f f p p }
{
    let separators = signs::separators_of(job.at);
    let chunk = Chunk { job, segment, rows };
    let at = join::put_chunk(doc, s.bytes, chunk, separators);
    let from = source_of(rows, segment.table);
    state::finish_segment(segments, s, from, 0, at, s.findings)
}
