// Keys and the rows that they name. Only tables in some ancestor list have keys.
ghost use Rattle.std.specs.Prelude.{◌≡◌, true, false, ◌<◌, eqb, get_or};
ghost use Rattle.nest.specs.Lists.{keep, first, some_of};
ghost use Rattle.nest.specs.UpTo.{up_to};
ghost use Rattle.nest.specs.Outline.{Outline, table_of, row_count};
ghost use Rattle.nest.specs.Nest.{has_keys, first_row, referred};
ghost use Rattle.nest.specs.Found.{found_by};
ghost use Rattle.nest.specs.Keys.{Rises, KeysAre, Keyed, MayRepeat};
ghost use Rattle.nest.specs.Job.{outline_by};

use crate::Job;
use crate::seek::{first_row_where, halve, some};
use spec::ids::{RowId, TableId};

// What is known of a table's keys: no row is found by one; or its rows are gone through; or its keys rise, and halving finds a row.
#[derive(Clone, Copy)]
pub enum Keys {
    None,
    Any,
    Rising,
}

// Whether u is among the ancestors of table d.
pub fn names(job: Job, d: TableId, u: u32) -> bool
    ensures { result ≡ some_of (eqb u) (table_of (outline_by job.entry) d.0).ancestors }
{
    let n = spec::tables::ancestor_count(job.at, d);
    some(n, |k| u == spec::tables::ancestor(job.at, d, k))
}

// Whether some table has u as its ancestor.
pub fn has_keys(job: Job, u: TableId) -> bool
    ensures { result ≡ has_keys (outline_by job.entry) u.0 }
{
    let n = spec::tables::table_count(job.at);
    some(n, |i| names(job, TableId(i), u.0))
}

// The first row of u whose key is v, whether or not u has keys.
pub fn first_with(job: Job, u: TableId, v: u64) -> Option<RowId>
    ensures { result ≡ found_by (first (keep (λ p. eqb ((outline_by job.entry).key u.0 p) v) (up_to 0 (row_count (outline_by job.entry) u.0)))) }
{
    let n = tables::data::row_count(job.at, u);
    first_row_where(
        0,
        n as usize,
        |k| tables::data::key(job.at, u, RowId(k as u32)) == v,
    )
}

// Whether the keys of u rise from row to row, as unsigned numbers.
pub fn ascends(job: Job, u: TableId) -> bool
    ensures { result ≡ true → Rises (outline_by job.entry) u.0 }
{
    let n = tables::data::row_count(job.at, u);
    let mut last = tables::data::key(job.at, u, RowId(0));
    for k in 1..n {
        let key = tables::data::key(job.at, u, RowId(k));
        if key <= last {
            return false;
        }
        last = key;
    }
    true
}

// What is known of the keys of u.
pub fn keys_of(job: Job, u: TableId) -> Keys
    ensures { KeysAre (outline_by job.entry) u.0 result }
{
    if !has_keys(job, u) {
        return Keys::None;
    }
    if ascends(job, u) {
        return Keys::Rising;
    }
    Keys::Any
}

// What is known of the keys of all tables of data. Who uses it asks that it is that of the job (`Keyed`).
pub fn all_keys(job: Job) -> [Keys; 16]
    ensures { Keyed (outline_by job.entry) result }
{
    let mut keys = [Keys::None; 16];
    let count = tables::data::data_count(job.at);
    for u in 0..count {
        keys[u as usize] = keys_of(job, TableId(u));
    }
    keys
}

// The row of u whose key is v, where the keys of u rise: each turn halves the rows that are left.
pub fn search(job: Job, u: TableId, v: u64) -> Option<RowId>
    requires { Rises (outline_by job) u.0 }
    ensures { result ≡ found_by (first (keep (λ p. eqb ((outline_by job.entry).key u.0 p) v) (up_to 0 (row_count (outline_by job.entry) u.0)))) }
{
    let n = tables::data::row_count(job.at, u);
    let at = halve(
        0,
        n as usize,
        |k| tables::data::key(job.at, u, RowId(k as u32)) < v,
    );
    let k = at as u32;
    if is_key(job, u, v, k) {
        return Some(RowId(k));
    }
    None
}

// Whether u has a row k and v is its key.
pub fn is_key(job: Job, u: TableId, v: u64, k: u32) -> bool
    ensures there { result ≡ true → (k < row_count (outline_by job.entry) u.0) × ((outline_by job.entry).key u.0 k ≡ v) }
    ensures not_there { result ≡ false → k < row_count (outline_by job.entry) u.0 → (outline_by job.entry).key u.0 k ≡ v → ⊥ }
{
    k < tables::data::row_count(job.at, u) && tables::data::key(job.at, u, RowId(k)) == v
}

// The row of u whose key is v, where the keys of u rise: the rows before and at `near` are looked at first.
pub fn search_near(job: Job, u: TableId, v: u64, near: u32) -> Option<RowId>
    requires { Rises (outline_by job) u.0 }
    ensures { result ≡ found_by (first (keep (λ p. eqb ((outline_by job.entry).key u.0 p) v) (up_to 0 (row_count (outline_by job.entry) u.0)))) }
{
    if 0 < near && is_key(job, u, v, near - 1) {
        return Some(RowId(near - 1));
    }
    if is_key(job, u, v, near) {
        return Some(RowId(near));
    }
    search(job, u, v)
}

// What is known of the keys of u, by the list of all tables.
pub fn known(keys: [Keys; 16], u: TableId) -> Keys
    ensures { result ≡ get_or keys u.0 Keys.None }
{
    let i = u.0 as usize;
    if i < 16 {
        return keys[i];
    }
    Keys::None
}

// The first row of u whose key is v, looked for from `near` on; a table without keys is not searched.
pub fn first_row(job: Job, keys: [Keys; 16], u: TableId, v: u64, near: u32) -> Option<RowId>
    requires { Keyed (outline_by job) keys }
    ensures { result ≡ found_by (first_row (outline_by job.entry) u.0 v) }
{
    match known(keys, u) {
        Keys::None => None,
        Keys::Any => first_with(job, u, v),
        Keys::Rising => search_near(job, u, v, near),
    }
}

// The row of u that row r of t refers to.
pub fn referred(
    job: Job,
    keys: [Keys; 16],
    t: TableId,
    r: RowId,
    u: TableId,
    near: u32,
) -> Option<RowId>
    requires { Keyed (outline_by job) keys }
    ensures { result ≡ found_by (referred (outline_by job.entry) t.0 r.0 u.0) }
{
    let value = tables::data::reference(job.at, t, u.0, r)?;
    first_row(job, keys, u, value, near)
}

// Whether two rows of t may have one key: they have keys, which don't rise.
pub fn may_repeat(keys: [Keys; 16], t: TableId) -> bool
    ensures { (j : Outline) → Keyed j keys → MayRepeat j t.0 result }
{
    match known(keys, t) {
        Keys::None => false,
        Keys::Any => true,
        Keys::Rising => false,
    }
}
