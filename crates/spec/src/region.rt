// Lists in the index. A list takes 33 numbers of it: its place, then the places of its first 32 items.
ghost use Rattle.std.specs.Prelude.{◌≡◌, length, get_or, ◌+◌, ◌<◌, ◌≤◌};
ghost use Rattle.codec.specs.Codec.{list_c};
ghost use Rattle.codec.specs.Skip.{skip};
ghost use Rattle.spec.specs.Kept.{Kept};
ghost use Rattle.spec.specs.Region.{put_item, Stored, ItemAt};

use crate::Indexed;
use codec::{Form, Section};

// Stores the place of item i of the list whose numbers begin at k, if it is among the first 32. The bound on k is for the sum: every list's numbers
// begin far below it.
pub fn put_item(index: &mut [u16], k: usize, i: usize, p: usize)
    requires { k < 4294967296 }
    ensures { index.new ≡ put_item index.old k i p }
{
    if i < 32 {
        codec::put(index, k + 1 + i, p);
    }
}

// Stores the place of a list of F and those of its items; answers the place behind it.
pub fn list_into<F: Form>(s: Section, index: &mut [u16], k: usize, at: usize) -> usize
    requires { k < 4294967296 }
    ensures { (result ≡ skip (list_c F.codec) s.entry.bytes.now at s.entry.end) × Kept k (k + 33) index.old index.new × Stored F.codec s.entry.bytes.now s.entry.end at k index.new }
{
    let n = s.count_at(at);
    let mut p = s.le_at(4, at);
    for i in 0..n {
        put_item(index, k, i, p);
        p = F::ends_at(s, p);
    }
    codec::put(index, k, at);
    p
}

// Where item i stands of the list whose numbers begin at k, if the list has it.
pub fn item_place(job: Indexed, k: usize, i: u32) -> Option<usize>
    requires small { k < 1152921504606846976 }
    requires there { get_or job.index.now k 0 + 4 ≤ length job.bytes.now }
    ensures { ItemAt job.entry.bytes.now job.entry.index.now k i result }
{
    let list = codec::place(job.index, k);
    if codec::num_in(job.bytes, list) <= i as usize {
        return None;
    }
    Some(codec::place(job.index, k + 1 + i as usize))
}
