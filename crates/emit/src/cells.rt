// The text of a cell.
ghost use Rattle.std.specs.Prelude.{◌≡◌, true, List, ℕ, ◌+◌, ◌*◌, ◌≤◌, length};
ghost use Rattle.format.specs.Ask.{max_of};
ghost use Rattle.lent.specs.Window.{stretch};
ghost use Rattle.column.specs.Cell.{or_null};
ghost use Rattle.column.specs.Answers.{cell_at};
ghost use Rattle.texts.specs.Held.{held};
ghost use Rattle.texts.specs.Reason.{Width, Outcome, gives};
ghost use Rattle.texts.specs.Said.{reason_of, text_of, Says};
ghost use Rattle.texts.specs.Wide.{signed64, signed128};
ghost use Rattle.texts.specs.Floor.{signed32};
ghost use Rattle.texts.specs.Number.{int_text, decimal_text};
ghost use Rattle.texts.specs.DateText.{date_text};
ghost use Rattle.texts.specs.Clock.{time_text};
ghost use Rattle.segment.specs.Pen.{placed, Penned};
ghost use Rattle.segment.specs.Values.{Plain};
ghost use Rattle.spec.specs.declared.ids.Stretch as Held;
ghost use Rattle.spec.specs.Answers.{stretch_of};
ghost use Rattle.emit.specs.Puts.{cell_text, cell_outcome};
ghost use Rattle.emit.specs.Written.{Writes, scale_in, is_own};
ghost use Rattle.nest.specs.Job.{job_by};

use column::Cell;
use nest::Job;
use segment::{Pen, Separators, Value};
use spec::ids::{RowId, Stretch, TableId};
use texts::number::Wide;
use texts::render::Refused;
use texts::{Text, number, parse, render};

// A text, and the reason why there is none. A refused text is the empty value, so who joins a segment takes the value in both cases.
#[derive(Clone, Copy)]
pub struct Written {
    pub value: Value,
    pub reason: Option<Refused>,
}

pub fn reason_of(why: Refused) -> u64
    ensures { result ≡ reason_of why }
{
    why.number()
}

// A text, empty where it is refused.
pub fn text_in(said: Result<Text, Refused>) -> Text
    ensures { result ≡ text_of said }
{
    said.unwrap_or(Text::empty())
}

// A text of its own, or the reason why there is none.
pub fn of_said(said: Result<Text, Refused>) -> Written
    ensures writes { (job : List ℕ) (o : Outcome) → Says said o → Writes job result o }
    ensures plain { (o : Outcome) → Says said o → length o.text ≤ 48 → Plain result.value }
{
    let text = text_in(said);
    let bytes = text.bytes;
    Written {
        value: segment::own(bytes, text.len),
        reason: said.err(),
    }
}

// The text of a whole number, by its 64 bits.
pub fn int_text(bits: u64) -> Text
    ensures { result ≡ held (int_text (signed64 bits)) }
{
    number::int_text(number::from_bits64(bits))
}

// The text of a decimal, by the halves of its 128 bits.
pub fn decimal_text(lo: u64, hi: u64, scale: u8) -> Text
    requires { scale ≤ 38 }
    ensures { result ≡ held (decimal_text (signed128 (lo + 18446744073709551616 * hi)) scale) }
{
    number::decimal_text(Wide { lo, hi }, scale)
}

fn said_days(bits: u32, max: Option<usize>) -> Result<Text, Refused>
    ensures { Says result (date_text (signed32 bits) max) }
{
    render::date_text(parse::from_bits(bits), max)
}

fn said_seconds(bits: u32, max: Option<usize>) -> Result<Text, Refused>
    ensures { Says result (time_text (signed32 bits) max) }
{
    render::time_text(parse::from_bits(bits), max)
}

// ---- at a place

// A width as a length.
pub fn width_of(n: Option<u32>) -> Option<usize>
    ensures { result ≡ n }
{
    n.map(|w| w as usize)
}

// The most that a place takes.
fn max_at(job: Job, id: Stretch, element: u32, component: Option<u32>) -> Option<usize>
    requires { id.start + id.len ≤ length job.at.bytes.now }
    ensures { result ≡ max_of (job_by job.entry) (stretch_of job.entry.at.bytes.now id) element component }
{
    width_of(spec::segments::max_of(job.at, id, element, component))
}

// The text of a cell that is no stretch of the job, at a place, and the reason why it has none.
pub fn own_text(
    job: Job,
    id: Stretch,
    element: u32,
    component: Option<u32>,
    cell: Cell,
) -> Result<Text, Refused>
    requires { (id.start + id.len ≤ length job.at.bytes.now) × (scale_in cell ≤ 38) }
    ensures { (b : List ℕ) → is_own cell ≡ true
        → Says result (cell_text (or_null (cell_at b cell)) (max_of (job_by job.entry) (stretch_of job.entry.at.bytes.now id) element component)) }
{
    match cell {
        Cell::None => Ok(Text::empty()),
        Cell::Null => Ok(Text::empty()),
        Cell::Bytes(_, _) => Ok(Text::empty()),
        Cell::Int(bits) => Ok(int_text(bits)),
        Cell::Wide(lo, hi, scale) => Ok(decimal_text(lo, hi, scale)),
        Cell::Days(bits) => said_days(bits, max_at(job, id, element, component)),
        Cell::Seconds(bits) => said_seconds(bits, max_at(job, id, element, component)),
    }
}

// The stretch of the job that is a cell's text; of a null it is empty.
pub fn held_in(cell: Cell) -> Option<Stretch>
    ensures { ((b : List ℕ) (max : Width) (s : Held.Stretch) → result ≡ Some s → cell_text (or_null (cell_at b cell)) max ≡ gives (stretch b s.start s.len)) × (result ≡ None → is_own cell ≡ true) }
{
    match cell {
        Cell::None => Some(Stretch { start: 0, len: 0 }),
        Cell::Null => Some(Stretch { start: 0, len: 0 }),
        Cell::Bytes(start, len) => Some(Stretch { start, len }),
        Cell::Int(_) | Cell::Wide(_, _, _) | Cell::Days(_) | Cell::Seconds(_) => None,
    }
}

// The text of a cell that is read, at a place of the segment with that identifier, and the reason why it has none.
pub fn read_text(job: Job, id: Stretch, element: u32, component: Option<u32>, cell: Cell) -> Written
    requires { (id.start + id.len ≤ length job.at.bytes.now) × (scale_in cell ≤ 38) }
    ensures { Writes job.entry.at.bytes.now result (cell_text (or_null (cell_at job.entry.at.bytes.now cell)) (max_of (job_by job.entry) (stretch_of job.entry.at.bytes.now id) element component)) }
{
    match held_in(cell) {
        Some(s) => code_text(s),
        None => of_said(own_text(job, id, element, component, cell)),
    }
}

// The same of a row's cell.
pub fn cell_text(
    job: Job,
    id: Stretch,
    t: TableId,
    r: RowId,
    element: u32,
    component: Option<u32>,
    column: u32,
) -> Written
    requires { id.start + id.len ≤ length job.at.bytes.now }
    ensures { Writes job.entry.at.bytes.now result (cell_outcome (job_by job.entry) (stretch_of job.entry.at.bytes.now id) t.0 r.0 element component column) }
{
    let cell = tables::data::cell(job.at, t, column, r);
    read_text(job, id, element, component, cell)
}

// A text of the job.
pub fn code_text(s: Stretch) -> Written
    ensures writes { (job : List ℕ) → Writes job result (gives (stretch_of job s)) }
    ensures plain { Plain result.value }
{
    let value = segment::held(s.start, s.len);
    Written {
        value,
        reason: None,
    }
}

// A text of its own, written at component c of element p.
#[inline(always)]
pub fn put_text(doc: &mut [u8], s: Separators, pen: Pen, p: u32, c: u32, text: Text) -> Pen
    ensures { (x : List ℕ) → text ≡ held x → Penned (placed s pen p c x) pen.at result doc.old doc.new }
{
    let bytes = text.as_bytes();
    segment::part(doc, bytes, s, pen, p as usize, c as usize, 0, bytes.len())
}
