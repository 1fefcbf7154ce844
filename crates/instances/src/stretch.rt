// Where a table's rows hang on rising rows, those that hang on one row are a stretch, which halving finds.
ghost use Rattle.std.specs.Prelude.{◌≡◌, ◌≤◌, ◌<◌};
ghost use Rattle.nest.specs.Outline.{Outline};
ghost use Rattle.nest.specs.Rising.{Climbs, Parted};
ghost use Rattle.tables.specs.Parts.{rows_before};
ghost use Rattle.instances.specs.Cursor.{Inside, Going};
ghost use Rattle.instances.specs.Stretch.{Same, Reached};
ghost use Rattle.nest.specs.Job.{outline_by, job_by};

use crate::Cursor;
use nest::TableRows;
use nest::order::rises;
use walk::Nest;

// Where the rows climb: a place behind `from` from which on none hangs on a row before `above` less one, tried 1, 2, 4 rows on and so forth.
fn far_enough(all: TableRows, from: usize, above: u32) -> usize
    requires { (from ≤ all.rows) × Climbs all.array.now all.base all.rows }
    ensures { Reached all.entry.array.now all.entry.base from all.entry.rows above result }
{
    let mut step: usize = 1;
    // the step doubles
    while step < all.rows - from {
        let at = from + step;
        if all.above(at) < above {
            step = step * 2;
        } else {
            return at;
        }
    }
    all.rows
}

// The same as `first_at`, in fewer steps where it stands near.
fn first_near(all: TableRows, from: usize, above: u32) -> usize
    requires { (from ≤ all.rows) × Climbs all.array.now all.base all.rows }
    ensures { Parted all.entry.array.now all.entry.base from all.entry.rows above result }
{
    let far = TableRows {
        array: all.array,
        base: all.base,
        rows: far_enough(all, from, above),
    };
    far.first_at(from, above)
}

// The cursor over the stretch of its rows alone.
fn stretch(nest: &[u32], cur: Cursor) -> Cursor
    requires { Inside nest.now cur × Climbs nest.now cur.base cur.rows × (0 < cur.above) }
    ensures { (o : Outline) → Going o nest.now cur → Same o nest.now cur result }
{
    let all = TableRows {
        array: nest,
        base: cur.base,
        rows: cur.rows,
    };
    let low = all.first_at(cur.next, cur.above);
    let high = first_near(all, low, cur.above + 1);
    Cursor {
        next: low,
        rows: high,
        ..cur
    }
}

// The same instances still to come, of fewer rows where the table's rows hang on rising rows.
pub fn narrowed(nest: Nest, cur: Cursor) -> Cursor
    requires { Going (outline_by nest.job) nest.array.now cur × (cur.base ≡ rows_before (job_by nest.job).tables cur.table.0) }
    ensures { Same (outline_by nest.entry.job) nest.entry.array.now cur result }
{
    if 0 < cur.above && rises(nest.array, cur.table) {
        stretch(nest.array, cur)
    } else {
        cur
    }
}
