// Where a row hangs: on a row of its table's parent, or a repeat row on a row of the anchor that it goes by.
ghost use Rattle.std.specs.Prelude.{◌≡◌, ◌<◌, length, get_or, true, false, IfSome};
ghost use Rattle.plan.specs.Answers.{instances_of};
ghost use Rattle.nest.specs.Outline.{row_table, table_of, repeated};
ghost use Rattle.nest.specs.Nest.{depth_of, claim_in, anchors};
ghost use Rattle.nest.specs.NestFindings.{last_table};
ghost use Rattle.nest.specs.OfJob.{kind_in};
ghost use Rattle.nest.specs.Claims.{claim_by, anchor_table, Hung};
ghost use Rattle.nest.specs.Keys.{Keyed, Deep, Within, Lined};
ghost use Rattle.nest.specs.Job.{outline_by};

use crate::Job;
use crate::keys::{Keys, first_row, referred};
use plan::answers::Instances;
use spec::ids::{LoopId, RowId, TableId};

// An anchor loop, its table, and a row's reference to it.
#[derive(Clone, Copy)]
pub struct Claimed {
    pub l: LoopId,
    pub table: TableId,
    pub value: u64,
}

// An anchor loop, and the table whose rows it enters.
#[derive(Clone, Copy)]
pub struct AnchorLoop {
    pub l: LoopId,
    pub table: TableId,
}

// The anchors of a repeat table, n of them in the order in which they are tried. There is no heap, so they stand in an array of fixed length with their
// number. Whose they are (`Lined`) is asked by who uses them.
#[derive(Clone, Copy)]
pub struct Line {
    pub anchors: [AnchorLoop; 8],
    pub n: u32,
}

// Where a row hangs: the row above plus one, or 0; the anchor loop; the table of the row above. Nest's array, which C reads, holds these numbers.
#[derive(Clone, Copy)]
pub struct Place {
    pub above: u32,
    pub l: LoopId,
    pub table: TableId,
}

// Of a row that hangs on none.
const NOWHERE: Place = Place {
    above: 0,
    l: LoopId(0),
    table: TableId(0),
};

// How many loops stand above l.
pub fn depth(job: Job, l: LoopId) -> u32
    ensures { result ≡ depth_of (outline_by job.entry) l.0 }
{
    let n = spec::loops::loop_count(job.at);
    let mut at = l.0;
    for d in 0..n {
        match spec::loops::loop_parent(job.at, LoopId(at)) {
            Some(p) => {
                at = p;
            }
            None => {
                return d;
            }
        }
    }
    n
}

// The table whose rows a `Rows` loop enters.
pub fn row_table(kind: Instances) -> Option<u32>
    ensures { result ≡ row_table (kind_in (instances_of kind)) }
{
    match kind {
        Instances::Rows(t) => Some(t.0),
        _ => None,
    }
}

// How many loops stand above each loop. The functions below ask that they are those of the job (`Deep`).
pub fn all_depths(job: Job) -> [u8; 32]
    ensures { Deep (outline_by job.entry) result }
{
    let mut depths = [0u8; 32];
    let n = spec::loops::loop_count(job.at);
    // no loop stands above one past the spec's: its depth stays 0
    for l in 0..n {
        depths[l as usize] = depth(job, LoopId(l)) as u8;
    }
    depths
}

// The depth of loop l, by the list of all.
pub fn depth_at(depths: [u8; 32], l: LoopId) -> u32
    requires { l.0 < 32 }
    ensures value { result ≡ get_or depths l.0 0 }
    ensures small { result < 256 }
{
    depths[l.0 as usize] as u32
}

// A depth that no loop of table t is below.
pub fn deepest(job: Job, depths: [u8; 32], t: TableId) -> u32
    requires { Deep (outline_by job) depths }
    ensures of { Within (outline_by job.entry) t.0 (length (table_of (outline_by job.entry) t.0).loops) result }
    ensures small { result < 256 }
{
    let n = spec::tables::table_loop_count(job.at, t);
    let mut d: u32 = 0;
    for i in 0..n {
        let l = spec::tables::table_loop(job.at, t, i);
        d = d.max(depth_at(depths, l));
    }
    d
}

// The table whose rows loop l enters, if it stands at depth d.
pub fn anchor(job: Job, depths: [u8; 32], l: LoopId, d: u32) -> Option<u32>
    requires { Deep (outline_by job) depths × (l.0 < 32) }
    ensures { result ≡ anchor_table (outline_by job.entry) l.0 d }
{
    if depth_at(depths, l) == d {
        return row_table(plan::planned::instances(job.at, l));
    }
    None
}

// The first anchor, the deepest first and equal depths in list order, whose reference row r of the repeat table t has. It goes through
// the loops as `line_up` does.
pub fn claim(job: Job, depths: [u8; 32], t: TableId, r: RowId) -> Result<Claimed, TableId>
    requires { Deep (outline_by job) depths }
    ensures { result ≡ claim_by (claim_in (outline_by job.entry) t.0 r.0 (anchors (outline_by job.entry) t.0)) (last_table t.0 (anchors (outline_by job.entry) t.0)) }
{
    let n = spec::tables::table_loop_count(job.at, t);
    let top = deepest(job, depths, t);
    let mut last = t;
    for up in 0..top + 1 {
        for i in 0..n {
            let l = spec::tables::table_loop(job.at, t, i);
            match anchor(job, depths, l, top - up) {
                Some(u) => match tables::data::reference(job.at, t, u, r) {
                    Some(v) => {
                        return Ok(Claimed {
                            l,
                            table: TableId(u),
                            value: v,
                        });
                    }
                    None => {
                        last = TableId(u);
                    }
                },
                None => {}
            }
        }
    }
    Err(last)
}

// The anchors of table t, the deepest first and equal depths in list order; more than eight are left to `claim`.
pub fn line_up(job: Job, depths: [u8; 32], t: TableId) -> Option<Line>
    requires { Deep (outline_by job) depths }
    ensures { IfSome result (Lined (outline_by job.entry) t.0) }
{
    let count = spec::tables::table_loop_count(job.at, t);
    let top = deepest(job, depths, t);
    let mut anchors = [AnchorLoop {
        l: LoopId(0),
        table: TableId(0),
    }; 8];
    let mut n: u32 = 0;
    for up in 0..top + 1 {
        for i in 0..count {
            let l = spec::tables::table_loop(job.at, t, i);
            match anchor(job, depths, l, top - up) {
                Some(u) => {
                    if n == 8 {
                        return None;
                    }
                    anchors[n as usize] = AnchorLoop {
                        l,
                        table: TableId(u),
                    };
                    n = n + 1;
                }
                None => {}
            }
        }
    }
    Some(Line { anchors, n })
}

// The anchors that rows of table t are hung by, if it repeats.
pub fn line_of(job: Job, depths: [u8; 32], t: TableId) -> Option<Line>
    requires { Deep (outline_by job) depths }
    ensures { IfSome result (Lined (outline_by job.entry) t.0) }
{
    if spec::tables::repeats(job.at, t) {
        return line_up(job, depths, t);
    }
    None
}

// The first of the anchors of table t, which are whole, whose reference row r has.
pub fn claim_along(job: Job, line: Line, t: TableId, r: RowId) -> Result<Claimed, TableId>
    requires { Lined (outline_by job) t.0 line }
    ensures { result ≡ claim_by (claim_in (outline_by job.entry) t.0 r.0 (anchors (outline_by job.entry) t.0)) (last_table t.0 (anchors (outline_by job.entry) t.0)) }
{
    let mut last = t;
    for k in 0..line.n {
        let a = line.anchors[k as usize];
        match tables::data::reference(job.at, t, a.table.0, r) {
            Some(v) => {
                return Ok(Claimed {
                    l: a.l,
                    table: a.table,
                    value: v,
                });
            }
            None => last = a.table,
        }
    }
    Err(last)
}

// The claim of row r of table t, by its anchors.
pub fn claim_by(
    job: Job,
    depths: [u8; 32],
    line: Option<Line>,
    t: TableId,
    r: RowId,
) -> Result<Claimed, TableId>
    requires { Deep (outline_by job) depths × IfSome line (Lined (outline_by job) t.0) }
    ensures { result ≡ claim_by (claim_in (outline_by job.entry) t.0 r.0 (anchors (outline_by job.entry) t.0)) (last_table t.0 (anchors (outline_by job.entry) t.0)) }
{
    match line {
        Some(s) => claim_along(job, s, t, r),
        None => claim(job, depths, t, r),
    }
}

// Where row r of the repeat table t hangs.
pub fn repeat_place(
    job: Job,
    keys: [Keys; 16],
    depths: [u8; 32],
    line: Option<Line>,
    t: TableId,
    r: RowId,
    near: u32,
) -> Place
    requires { Keyed (outline_by job) keys × Deep (outline_by job) depths × (repeated (outline_by job) t.0 ≡ true) × IfSome line (Lined (outline_by job) t.0) }
    ensures { Hung (outline_by job.entry) t.0 r.0 result }
{
    match claim_by(job, depths, line, t, r) {
        Ok(k) => match first_row(job, keys, k.table, k.value, near) {
            Some(p) => Place {
                above: p.0 + 1,
                l: k.l,
                table: k.table,
            },
            None => NOWHERE,
        },
        Err(_) => NOWHERE,
    }
}

// Where row r of another table t hangs.
pub fn parent_place(job: Job, keys: [Keys; 16], t: TableId, r: RowId, near: u32) -> Place
    requires { Keyed (outline_by job) keys × (repeated (outline_by job) t.0 ≡ false) }
    ensures { Hung (outline_by job.entry) t.0 r.0 result }
{
    match spec::tables::table_parent(job.at, t) {
        Some(u) => match referred(job, keys, t, r, TableId(u), near) {
            Some(p) => Place {
                above: p.0 + 1,
                l: LoopId(0),
                table: TableId(u),
            },
            None => NOWHERE,
        },
        None => NOWHERE,
    }
}

// Where row r of table t hangs, looked for from `near` on.
pub fn place_of(
    job: Job,
    keys: [Keys; 16],
    depths: [u8; 32],
    line: Option<Line>,
    t: TableId,
    r: RowId,
    near: u32,
) -> Place
    requires { Keyed (outline_by job) keys × Deep (outline_by job) depths × IfSome line (Lined (outline_by job) t.0) }
    ensures { Hung (outline_by job.entry) t.0 r.0 result }
{
    if spec::tables::repeats(job.at, t) {
        return repeat_place(job, keys, depths, line, t, r, near);
    }
    parent_place(job, keys, t, r, near)
}
