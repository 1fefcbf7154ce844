// What is asked of the layout.
ghost use Rattle.std.specs.Prelude.{◌≡◌, ℕ, ◌+◌, ◌*◌, ◌<◌, false, length, get_or};
ghost use Rattle.codec.specs.Field.{Stands};
ghost use Rattle.format.specs.Layout.{item_c};
ghost use Rattle.format.specs.Sections.{job_of};
ghost use Rattle.format.specs.Orders.{order_of};
ghost use Rattle.format.specs.Ask.{forced_of, group_columns_of, depth_of, capacity_of};
ghost use Rattle.plan.specs.Answers.{item_of, no_item};
ghost use Rattle.plan.specs.Index.{PlanIndexed};
ghost use Rattle.plan.specs.Planned.{OrderIs};

use crate::answers::{Item, Order};
use crate::index::{CAPACITY, COLUMNS, DEPTH, FORCED, ORDER};
use crate::read;
use spec::Indexed;
use spec::ids::{LoopId, TableId};
use spec::read::{item_at, number_at};
use spec::region::item_place;

// The order of a loop.
pub fn order(job: Indexed, l: LoopId) -> Order
    requires { PlanIndexed job.bytes.now job.index.now × (l.0 < 32) }
    ensures { OrderIs job.entry.bytes.now l.0 result }
{
    match item_place(job, ORDER, l.0) {
        None => Order { count: 0, first: 0 },
        Some(p) => Order {
            count: codec::num_in(job.bytes, p) as u32,
            first: p + 4,
        },
    }
}

// How many items the order of a loop has.
pub fn order_count(job: Indexed, l: LoopId) -> u32
    requires { PlanIndexed job.bytes.now job.index.now × (l.0 < 32) }
    ensures { result ≡ length (order_of (job_of job.entry.bytes.now) l.0) }
{
    order(job, l).count
}

// Item k of an order.
pub fn order_item(job: &[u8], o: Order, k: u32) -> Item
    requires { Stands item_c job.now (o.first + k * 5) }
    ensures { (l : ℕ) → OrderIs job.now l o → k < o.count → item_of result ≡ get_or (order_of (job_of job.now) l) k no_item }
{
    read::item_at(job, o.first + k as usize * 5)
}

// Item k of the order of a loop.
pub fn item(job: Indexed, l: LoopId, k: u32) -> Item
    requires { PlanIndexed job.bytes.now job.index.now × (l.0 < 32) }
    ensures { item_of result ≡ get_or (order_of (job_of job.entry.bytes.now) l.0) k no_item }
{
    let o = order(job, l);
    // past the order's end the definitions go by this item (`no_item`)
    if o.count <= k {
        return Item::Segment(0);
    }
    order_item(job.bytes, o, k)
}

// Whether planned segment i of a loop is written also where none of its columns has a value.
pub fn forced(job: Indexed, l: LoopId, i: u32) -> bool
    requires { PlanIndexed job.bytes.now job.index.now × (l.0 < 32) }
    ensures { result ≡ forced_of (job_of job.entry.bytes.now) l.0 i }
{
    match item_place(job, FORCED, l.0) {
        None => false,
        Some(p) => {
            let n = codec::num_in(job.bytes, p);
            (i as usize) < n && job.bytes[p + 4 + i as usize] == 1
        }
    }
}

// How many columns make the groups of a loop.
pub fn group_column_count(job: Indexed, l: LoopId) -> u32
    requires { PlanIndexed job.bytes.now job.index.now × (l.0 < 32) }
    ensures { result ≡ length (group_columns_of (job_of job.entry.bytes.now) l.0) }
{
    match item_place(job, COLUMNS, l.0) {
        None => 0,
        Some(p) => codec::num_in(job.bytes, p) as u32,
    }
}

// Group column k of a loop, 0 past the last, as `get_or` tells it.
pub fn group_column(job: Indexed, l: LoopId, k: u32) -> u32
    requires { PlanIndexed job.bytes.now job.index.now × (l.0 < 32) }
    ensures { result ≡ get_or (group_columns_of (job_of job.entry.bytes.now) l.0) k 0 }
{
    match item_place(job, COLUMNS, l.0) {
        None => 0,
        Some(p) => item_at(job.bytes, p, k),
    }
}

// The depth of a loop among the envelope loops; 0 where it has none, as `depth_of` tells it.
pub fn depth(job: Indexed, l: LoopId) -> u32
    requires { PlanIndexed job.bytes.now job.index.now × (l.0 < 32) }
    ensures { result ≡ depth_of (job_of job.entry.bytes.now) l.0 }
{
    match item_place(job, DEPTH, l.0) {
        None => 0,
        Some(p) => number_at(job.bytes, p).unwrap_or(0),
    }
}

// How many rows a repeat segment of a table takes; 1 where the layout lacks the table.
pub fn capacity(job: Indexed, t: TableId) -> u32
    requires { PlanIndexed job.bytes.now job.index.now }
    ensures { result ≡ capacity_of (job_of job.entry.bytes.now) t.0 }
{
    let list = codec::place(job.index, CAPACITY);
    let n = codec::num_in(job.bytes, list);
    if n <= t.0 as usize {
        return 1;
    }
    codec::num_in(job.bytes, list + 4 + t.0 as usize * 4) as u32
}
