// The texts of the envelope: control numbers, counts, padded values.
ghost use Rattle.std.specs.Prelude.{◌≡◌, List, [], ◌++◌, ℕ, ◌+◌, ◌*◌, ◌≤◌, ◌<◌, length, get_or, take};
ghost use Rattle.lent.specs.Window.{stretch};
ghost use Rattle.segment.specs.Values.{value_text};
ghost use Rattle.texts.specs.Number.{count_text};
ghost use Rattle.texts.specs.Pad.{padded, control_text};
ghost use Rattle.emit.specs.Envelope.{field_at};
ghost use Rattle.emit.specs.Table.{table, searched};

use segment::Value;
use texts::{envelope, number};

// A control number, with zeros in front up to its element's min.
pub fn control_value(number: u64, min: Option<usize>) -> Value
    ensures { (job : List ℕ) → value_text job result ≡ control_text number min }
{
    let text = number::count_text(number);
    let zeros = envelope::control_padding(text.len, min);
    let bytes = text.bytes;
    Value {
        zeros,
        bytes,
        count: text.len,
        start: 0,
        len: 0,
        spaces: 0,
    }
}

// A count.
pub fn count_value(count: u64) -> Value
    ensures { (job : List ℕ) → value_text job result ≡ count_text count }
{
    control_value(count, None)
}

// The bytes of a value, its own and the stretch of the job, filled up to the width of an element.
pub fn padded_value(
    job: &[u8],
    v: Value,
    numeric: bool,
    min: Option<usize>,
    max: Option<usize>,
) -> Value
    requires { (length job.now ≤ 65536) × (v.count ≤ 48) }
    ensures { value_text job.now result ≡ padded numeric min max (take v.count v.bytes ++ stretch job.now v.start v.len) }
{
    let bytes = v.bytes;
    let own = lent::stretch_len(&bytes, 0, v.count);
    let held = lent::stretch_len(job, v.start, v.len);
    let padding = envelope::pad(own + held, numeric, min, max);
    Value {
        zeros: padding.zeros,
        spaces: padding.spaces,
        ..v
    }
}

// ISA, GS and ST, one row for each depth: element positions, each with the number of its field; zeros behind them. `table` in
// specs/, which the contracts cite, has the same rows.
const LAYOUT: [[u8; 18]; 3] = [
    [5, 0, 6, 1, 7, 2, 8, 3, 9, 6, 10, 7, 11, 10, 15, 8, 16, 11],
    [2, 4, 3, 5, 4, 6, 5, 7, 0, 0, 0, 0, 0, 0, 0, 0, 0, 0],
    [0, 0, 0, 0, 0, 0, 0, 0, 0, 0, 0, 0, 0, 0, 0, 0, 0, 0],
];

// The depths are 0, 1 and 2, the table's rows: ISA, GS and ST.
fn position_in(depth: usize, i: usize) -> u32
    requires { (depth < 3) × (i < 9) }
    ensures { result ≡ get_or (get_or table depth []) (i * 2) 0 }
{
    LAYOUT[depth][i * 2] as u32
}

fn field_in(depth: usize, i: usize) -> u8
    requires { (depth < 3) × (i < 9) }
    ensures { result ≡ get_or (get_or table depth []) (i * 2 + 1) 0 }
{
    LAYOUT[depth][i * 2 + 1]
}

fn search(depth: usize, position: u32) -> Option<u8>
    requires { depth < 3 }
    ensures { result ≡ searched (get_or table depth []) 9 0 position }
{
    for i in 0..9 {
        if position_in(depth, i) == position {
            return Some(field_in(depth, i));
        }
    }
    None
}

// The field that the element at a position of a trigger holds, by its case in the Rust's `Field`.
pub fn field_at(depth: usize, position: u32) -> Option<u8>
    ensures { result ≡ field_at depth position }
{
    if position == 0 || 3 <= depth {
        return None;
    }
    search(depth, position)
}
