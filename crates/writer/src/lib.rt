// The writer: a job's document, segments, findings and stops, in lists that the caller lends. Of the findings it fills a window, a list that holds those
// from one number on.
#![tactic(auto)]

ghost use Rattle.std.specs.Prelude.{◌≡◌, ◌||◌, ◌+◌, ◌-◌, ◌*◌, ◌≤◌, ◌<◌, ◌/◌, [], ◌∷◌, length, get_or, ltb, MatchOption};
ghost use Rattle.std.proofs.lemmas.List.Edits.{sets};
ghost use Rattle.codec.specs.Codec.{pick};
ghost use Rattle.format.specs.Passed.{Passed};
ghost use Rattle.format.specs.Refusal.{rows_of_all};
ghost use Rattle.nest.specs.Nest.{nest_array};
ghost use Rattle.nest.specs.NestFindings.{nest_findings};
ghost use Rattle.nest.specs.Rising.{rising_flags};
ghost use Rattle.nest.specs.Ready.{Ready};
ghost use Rattle.nest.specs.OutlineAt.{outline_at};
ghost use Rattle.walk.specs.Nested.{Nested};
ghost use Rattle.format.specs.Sections.{job_of};
ghost use Rattle.walk.specs.Tour.{census};
ghost use Rattle.writer.specs.Answer.{number_by, number_of, numbers, values_of};
ghost use Rattle.writer.specs.declared.Refused.TheVariants.{Job};
ghost use Rattle.writer.specs.Result.{result_of};
ghost use Rattle.writer.specs.Wrote.{window_from, WroteFrom};
ghost use Rattle.writer.specs.Filled.{first_state, start_of, Filled};
ghost use Rattle.nest.specs.Job.{outline_by, job_by};

use census::crowded;
use emit::state::{Counts, State};
use index::fill_index;
use nest::order::mark_rising;
use nest::rows::nest_rows;
use nest::{Job, nest_findings};
use refusal::Refusal;
use run::run;
use spec::Indexed;
use spec::envelope::control_number;
use spec::ids::TableId;
use walk::Nest;

/// How many items each of the four lists has, and so how much room it takes: a list of numbers takes three a segment and three a stop.
#[derive(Clone, Copy)]
pub struct Totals {
    /// Bytes of the document.
    pub bytes: usize,
    /// Segments of the document.
    pub segments: usize,
    /// Findings, ten numbers each.
    pub findings: usize,
    /// Stops: the rows that the walk entered.
    pub stops: usize,
}

/// Why a job isn't finished. The lowest number that applies is told (docs/RULES.md, "Answers").
#[derive(Clone, Copy)]
pub enum Refused {
    /// Refusals 1 to 5: the job itself is no good. The lists are as they were.
    Job(Refusal),
    /// Refusal 6: the walk enters more than 65,536 loop instances (docs/RULES.md, "Answer 6"). The lists are as they were.
    Instances,
    /// Refusal 7: a list is shorter than its count (docs/RULES.md, "Answer 7"). Here are the counts that the job comes to; each list holds as many first
    /// items as fit, and is untouched behind them.
    Room(Totals),
}

impl Refused {
    /// The number of the refusal, 1 to 7. C callers get it as the answer.
    pub fn number(self) -> u32
        ensures { result ≡ number_by self }
    {
        match self {
            Refused::Job(refusal) => refusal.number(),
            Refused::Instances => 6,
            Refused::Room(_) => 7,
        }
    }
}

impl From<Refusal> for Refused {
    ghost from_gives = { λ r e. e ≡ Job r };

    fn from(refusal: Refusal) -> Refused {
        Refused::Job(refusal)
    }
}

/// What a call answers: the counts of a finished job, which is answer 0, or why it isn't finished (docs/RULES.md, "Answers").
pub type Answer = Result<Totals, Refused>;

// Where the count of findings' numbers starts: place 2^62 is the window's first.
fn start_of(from: usize) -> usize
    ensures { result ≡ start_of from }
{
    if from < 461168601842738791 {
        return 4611686018427387904 - from * 10;
    }
    0
}

fn first_state(control: u64, findings: usize) -> State
    ensures { result ≡ first_state control findings }
{
    State {
        high: [None; 16],
        counter: [control; 32],
        counts: Counts {
            entries: 0,
            begun: 0,
            bytes: 0,
            segments: 0,
            findings: findings,
            stops: 0,
        },
    }
}

// The whole result, as far as it fits: nest's findings, then the walk. Job, index, nest's array and the lists come here one by one: of a slice of its
// own a proof knows that its bytes are bytes, of one behind a borrow in a struct it doesn't.
fn written<'x>(
    job: &'x [u8],
    index: &'x [u16],
    nest: &'x [u32],
    document: &mut [u8],
    segments: &mut [u64],
    window: &mut [u64],
    stops: &mut [u64],
    start: usize,
) -> State
    requires { Nested job.now index.now nest.now × (census (outline_at job.now) ≤ 65536) }
    ensures { Filled (result_of (job_of job.now)) result start document.old document.new segments.old segments.new window.old window.new stops.old stops.new }
{
    let nest = Nest {
        job: Job {
            at: Indexed { bytes: job, index },
        },
        array: nest,
    };
    let n = nest_findings(nest.job, nest.array, window, start);
    let s = first_state(control_number(nest.job.at), n);
    run(nest, document, segments, window, stops, s)
}

// The answer by the counts and by how many items each list has room for.
fn answer_of(s: State, start: usize, d: usize, g: usize, f: usize, p: usize) -> Answer
    requires { start ≤ s.counts.findings }
    ensures { (number_of result ≡ pick (ltb d s.counts.bytes || (ltb g (s.counts.segments / 3) || (ltb f ((s.counts.findings - start) / 10) || ltb p (s.counts.stops / 3)))) 7 0) × (values_of result ≡ s.counts.bytes ∷ s.counts.segments / 3 ∷ (s.counts.findings - start) / 10 ∷ s.counts.stops / 3 ∷ []) }
{
    let segments = s.counts.segments / 3;
    let findings = (s.counts.findings - start) / 10;
    let stops = s.counts.stops / 3;
    let totals = Totals {
        bytes: s.counts.bytes,
        segments,
        findings,
        stops,
    };
    if d < totals.bytes {
        return Err(Refused::Room(totals));
    }
    if g < segments {
        return Err(Refused::Room(totals));
    }
    if f < findings {
        return Err(Refused::Room(totals));
    }
    if p < stops {
        return Err(Refused::Room(totals));
    }
    Ok(totals)
}

// A job that passes 1 to 6. Only whole places of a list are written to.
fn walked(
    job: &[u8],
    index: &[u16],
    nest: &[u32],
    document: &mut [u8],
    segments: &mut [u64],
    window: &mut [u64],
    stops: &mut [u64],
    from: usize,
    room: usize,
) -> Answer
    requires { Nested job.now index.now nest.now × (census (outline_at job.now) ≤ 65536) }
    ensures { WroteFrom job.now document.old document.new segments.old segments.new window.old window.new stops.old stops.new from room result }
{
    let start = start_of(from);
    let d = document.len();
    let g = segments.len() / 3;
    let f = window.len() / 10;
    let p = stops.len() / 3;
    let ge = g * 3;
    let fe = f * 10;
    let pe = p * 3;
    let s = written(
        job,
        index,
        nest,
        document,
        &mut segments[..ge],
        &mut window[..fe],
        &mut stops[..pe],
        start,
    );
    answer_of(s, start, d, g, room, p)
}

// A job with its index and nest's array: whether it has too many instances is known before anything is stored.
fn nested<'x>(
    job: &'x [u8],
    index: &'x [u16],
    nest: &'x [u32],
    document: &mut [u8],
    segments: &mut [u64],
    window: &mut [u64],
    stops: &mut [u64],
    from: usize,
    room: usize,
) -> Answer
    requires { Nested job.now index.now nest.now }
    ensures { WroteFrom job.now document.old document.new segments.old segments.new window.old window.new stops.old stops.new from room result }
{
    let many = crowded(Nest {
        job: Job {
            at: Indexed { bytes: job, index },
        },
        array: nest,
    });
    if many {
        return Err(Refused::Instances);
    }
    walked(
        job, index, nest, document, segments, window, stops, from, room,
    )
}

// Nest's numbers and flags, in a list that has room for both.
fn hang_rows(job: Job, nest: &mut [u32])
    requires { rows_of_all (job_by job).tables * 3 + 16 ≤ length nest.old }
    ensures { nest.new ≡ sets (sets nest.old 0 (nest_array (outline_by job.entry))) (length nest.old - 16) (rising_flags (outline_by job.entry)) }
{
    nest_rows(job, nest);
    mark_rising(job, nest);
}

// A job of few enough rows: its array has N numbers, and is short where rows are few, since each call sets it to zero.
fn in_array<'x, const N: usize>(
    job: &'x [u8],
    index: &'x [u16],
    document: &mut [u8],
    segments: &mut [u64],
    window: &mut [u64],
    stops: &mut [u64],
    from: usize,
    room: usize,
) -> Answer
    requires { Ready job.now index.now × (rows_of_all (job_of job.now).tables * 3 + 16 ≤ N) × (N ≤ 12304) }
    ensures { WroteFrom job.now document.old document.new segments.old segments.new window.old window.new stops.old stops.new from room result }
{
    let mut nest = [0u32; N];
    let at = Indexed { bytes: job, index };
    hang_rows(Job { at }, &mut nest);
    nested(
        job, index, &nest, document, segments, window, stops, from, room,
    )
}

// A job that passes 1 to 5.
fn passed(
    job: &[u8],
    document: &mut [u8],
    segments: &mut [u64],
    window: &mut [u64],
    stops: &mut [u64],
    from: usize,
    room: usize,
) -> Answer
    requires { Passed job.now }
    ensures { WroteFrom job.now document.old document.new segments.old segments.new window.old window.new stops.old stops.new from room result }
{
    let mut index = [0u16; 10752];
    fill_index(job, &mut index);
    let at = Indexed {
        bytes: job,
        index: &index,
    };
    let tables = tables::data::data_count(at);
    let rows = tables::data::first_row(at, TableId(tables));
    if rows <= 240 {
        return in_array::<736>(job, &index, document, segments, window, stops, from, room);
    }
    in_array::<12304>(job, &index, document, segments, window, stops, from, room)
}

/// Writes a job, with a window of its findings: `window` gets those from number `from` on, ten numbers each, as many as fit. `room` says how many findings
/// the caller has room for in all; refusal 7 and its counts go by it and not by the window. The other lists are those of `baktuven::write`, which callers
/// use, and so is the answer (docs/RULES.md, "Answers" and "What a call tells").
pub fn window(
    job: &[u8],
    document: &mut [u8],
    segments: &mut [u64],
    window: &mut [u64],
    stops: &mut [u64],
    from: usize,
    room: usize,
) -> Answer
    ensures { WroteFrom job.now document.old document.new segments.old segments.new window.old window.new stops.old stops.new from room result }
{
    refusal::check(job)?;
    passed(job, document, segments, window, stops, from, room)
}

/// The findings of a job from number `from` on, ten numbers each, as many as fit into the window, which is untouched behind them; of a job that is refused
/// by 1 to 6 none.
pub fn later(job: &[u8], window: &mut [u64], from: usize)
    ensures { window.new ≡ window_from job.now from window.old }
{
    let mut document = [0u8; 1];
    let mut segments = [0u64; 3];
    let mut stops = [0u64; 3];
    let _ = crate::window(
        job,
        &mut document,
        &mut segments,
        window,
        &mut stops,
        from,
        0,
    );
}

/// The totals of an answer that has some: of a finished job, and of one that a list is too short for.
pub fn totals_of(a: Answer) -> Option<Totals>
    ensures { MatchOption result (values_of a ≡ []) (λ s. values_of a ≡ numbers s) }
{
    match a {
        Ok(totals) => Some(totals),
        Err(Refused::Room(totals)) => Some(totals),
        Err(Refused::Job(_)) => None,
        Err(Refused::Instances) => None,
    }
}

/// How many findings there are, whether or not they found room; 0 for a job that is refused by 1 to 6.
pub fn found(a: Answer) -> usize
    ensures { result ≡ get_or (values_of a) 2 0 }
{
    match totals_of(a) {
        Some(totals) => totals.findings,
        None => 0,
    }
}
