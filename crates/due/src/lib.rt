// What data a loop and a segment have.
#![tactic(auto)]

ghost use Rattle.std.specs.Prelude.{◌≡◌, ◌<◌, ltb, ◌&&◌};
ghost use Rattle.plan.specs.Answers.{item_of};
ghost use Rattle.plan.specs.Planned.{PlannedIs};
ghost use Rattle.nest.specs.Lists.{is};
ghost use Rattle.nest.specs.Outline.{source_table, inside_table, kind_of, segment_of, planned, has_occurrence};
ghost use Rattle.nest.specs.OfJob.{item_in};
ghost use Rattle.walk.specs.Instances.{own_data, has_data, shown};
ghost use Rattle.walk.specs.Tour.{due_row, is_opener, opens_at, opened};
ghost use Rattle.nest.specs.Job.{outline_by};

use crate::cells::{
    differs, filled_by, group_table, has_value, is_opener, repeat_table, same_segment, some_column,
    stands_inside,
};
use nest::Job;
use nest::seek::some;
use plan::answers::{Item, Planned};
use spec::ids::{LoopId, RowId, TableId};

pub mod cells;

// Whether one of the column cells that planned segment i of loop l, which is s, names is not null.
pub fn filled(job: Job, l: LoopId, i: u32, s: Planned, t: TableId, r: RowId) -> bool
    requires { PlannedIs job.at.bytes.now l.0 i s }
    ensures { result ≡ (outline_by job.entry).filled l.0 i t.0 r.0 }
{
    some_column(job, l, i, s, |c| has_value(job, t, c, r))
}

// Whether a row segment is written: data has the table, and the segment is forced or filled.
pub fn due_row(job: Job, l: LoopId, i: u32, s: Planned, t: TableId, r: RowId) -> bool
    requires { (l.0 < 32) × PlannedIs job.at.bytes.now l.0 i s }
    ensures { result ≡ due_row (outline_by job.entry) l.0 i t.0 r.0 }
{
    let n = tables::data::data_count(job.at);
    if n <= t.0 {
        return false;
    }
    let forced = plan::layout::forced(job.at, l, i);
    if forced {
        return true;
    }
    filled(job, l, i, s, t, r)
}

// Whether the spec has the occurrence that a planned segment names.
pub fn has_occurrence(job: Job, l: LoopId, i: u32, s: Planned) -> bool
    requires { PlannedIs job.at.bytes.now l.0 i s }
    ensures { result ≡ has_occurrence (outline_by job.entry) l.0 i }
{
    let n = spec::loops::occurrence_count(job.at, l);
    s.occurrence < n
}

// Whether planned segment i of loop l is a row segment of table t that row r fills.
fn row_fills(job: Job, l: LoopId, i: u32, t: TableId, r: RowId) -> bool
    requires { l.0 < 32 }
    ensures { result ≡ is (source_table (segment_of (outline_by job.entry) l.0 i).source) t.0 && (outline_by job.entry).filled l.0 i t.0 r.0 }
{
    let s = plan::planned::segment(job.at, l, i);
    filled_by(s.source, t) && filled(job, l, i, s, t, r)
}

// Whether row r of table t fills a row segment of loop l.
fn own_data(job: Job, l: LoopId, t: TableId, r: RowId) -> bool
    requires { l.0 < 32 }
    ensures { result ≡ own_data (outline_by job.entry) l.0 t.0 r.0 }
{
    let n = plan::planned::planned_count(job.at, l);
    some(n, |i| row_fills(job, l, i, t, r))
}

// Whether the instances of a loop stand inside a row of table t.
fn inside(job: Job, l: LoopId, t: TableId) -> bool
    requires { l.0 < 32 }
    ensures { result ≡ is (inside_table (kind_of (outline_by job.entry) l.0)) t.0 }
{
    let k = plan::planned::instances(job.at, l);
    stands_inside(k, t)
}

// Whether row r of table t fills a row segment of loop l, or of a loop inside the same table below it, looking `height` levels down.
pub fn has_data(job: Job, l: LoopId, t: TableId, r: RowId, height: u32) -> bool
    requires { l.0 < 32 }
    ensures { result ≡ has_data (outline_by job.entry) height l.0 t.0 r.0 }
{
    if height == 0 {
        return false;
    }
    if own_data(job, l, t, r) {
        return true;
    }
    let n = spec::loops::child_count(job.at, l);
    for k in 0..n {
        let c = spec::loops::child(job.at, l, k);
        if inside(job, c, t) && has_data(job, c, t, r, height - 1) {
            return true;
        }
    }
    false
}

// Whether an `Inside` loop is written: it is required, or has data.
pub fn shown(job: Job, l: LoopId, t: TableId, r: RowId) -> bool
    requires { l.0 < 32 }
    ensures { result ≡ shown (outline_by job.entry) l.0 t.0 r.0 }
{
    let n = spec::loops::loop_count(job.at);
    if l.0 < n && spec::loops::required(job.at, l) {
        return true;
    }
    has_data(job, l, t, r, n)
}

// Whether two rows have equal cells in the columns that make the groups of a loop; without groups, as rows of table 0.
pub fn same_group(job: Job, l: LoopId, a: RowId, b: RowId) -> bool
    requires { l.0 < 32 }
    ensures { result ≡ (outline_by job.entry).same_group l.0 a.0 b.0 }
{
    let kind = plan::planned::instances(job.at, l);
    let t = group_table(kind).unwrap_or(TableId(0));
    let n = plan::layout::group_column_count(job.at, l);
    !some(
        n,
        |k| differs(job, t, plan::layout::group_column(job.at, l, k), a, b),
    )
}

// Whether two rows may share a repeat segment: their `segment` cells agree, and so do the columns outside the groups; of no repeat segment, as rows of table 0.
pub fn same_chunk(job: Job, l: LoopId, i: u32, a: RowId, b: RowId) -> bool
    requires { l.0 < 32 }
    ensures { result ≡ (outline_by job.entry).same_chunk l.0 i a.0 b.0 }
{
    let s = plan::planned::segment(job.at, l, i);
    let t = repeat_table(s.source).unwrap_or(TableId(0));
    if same_segment(job, t, a, b) {
        return !some_column(job, l, i, s, |c| differs(job, t, c, a, b));
    }
    false
}

// Whether planned segment i is the trigger of an envelope loop.
fn opener_at(job: Job, l: LoopId, i: u32) -> bool
    requires { l.0 < 32 }
    ensures { result ≡ ltb i (planned (outline_by job.entry) l.0) && is_opener (segment_of (outline_by job.entry) l.0 i).source }
{
    let n = plan::planned::planned_count(job.at, l);
    i < n && is_opener(plan::planned::source(job.at, l, i))
}

// Whether an item of the order of loop l is its trigger.
fn opens_at(job: Job, l: LoopId, item: Item) -> bool
    requires { l.0 < 32 }
    ensures { result ≡ opens_at (outline_by job.entry) l.0 (item_in (item_of item)) }
{
    match item {
        Item::Segment(i) => opener_at(job, l, i),
        Item::Loop(_) => false,
    }
}

// Whether the order of a loop names its trigger.
pub fn opened(job: Job, l: LoopId) -> bool
    requires { l.0 < 32 }
    ensures { result ≡ opened (outline_by job.entry) l.0 }
{
    let n = plan::layout::order_count(job.at, l);
    some(n, |k| opens_at(job, l, plan::layout::item(job.at, l, k)))
}
