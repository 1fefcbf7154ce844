// Loop numbers of a job: those that are no loop's, a loop by its number, and numbers that repeat.
#![tactic(auto)]

mod loops;

ghost use Rattle.std.specs.Prelude.{◌≡◌, ◌≢◌, Bool, false, List, ◌<◌, ◌≤◌, ℕ, length, drop, eqb, leb, Some};
ghost use Rattle.codec.specs.Codec.{le_c, list_c};
ghost use Rattle.codec.specs.Forms.{num_c, opt_c};
ghost use Rattle.codec.specs.Skip.{count_at, skip, tag_at, Is};
ghost use Rattle.codec.specs.Limits.{any_of};
ghost use Rattle.format.specs.Words.{if_some, repeats};
ghost use Rattle.format.specs.Spec.{Loop, loop_c, spec_c, table_c};
ghost use Rattle.format.specs.Layout.{item_c};
ghost use Rattle.format.specs.Fields.{loop_children, spec_roots, spec_tables};
ghost use Rattle.format.specs.Refusal.{outside, outside_loop, outside_order, outside_table};
ghost use Rattle.says.specs.Says.{Says, SaysBefore, Tests};
ghost use Rattle.tree.specs.Parts.{again, on_loop, Placed, Noted, outside_spec};

use codec::forms::{Bytes, Items, Le, Opt};
use codec::{Form, Section};
use format::{Control, Item, Table};
pub use loops::Loops;

// ---- numbers that are no loop's, of n loops

fn outside_at(s: Section, at: usize, n: usize) -> bool
    ensures says { Says num_c s.entry.bytes.now s.entry.end at (outside n) result }
    ensures number { result ≡ leb n (count_at s.entry.bytes.now at s.entry.end) }
{
    n <= s.count_at(at)
}

fn opt_outside_at(s: Section, at: usize, n: usize) -> bool
    ensures says { Says (opt_c num_c) s.entry.bytes.now s.entry.end at (if_some (outside n)) result }
    ensures there { tag_at s.entry.bytes.now at s.entry.end ≡ 1 → result ≡ leb n (count_at s.entry.bytes.now (skip (le_c 1) s.entry.bytes.now at s.entry.end) s.entry.end) }
    ensures none { tag_at s.entry.bytes.now at s.entry.end ≢ 1 → result ≡ false }
{
    says::lists::opt_at::<Le<4>, _>(s, at, |p| outside_at(s, p, n))
}

fn outsides_at(s: Section, at: usize, n: usize) -> bool
    ensures says { Says (list_c num_c) s.entry.bytes.now s.entry.end at (any_of (outside n)) result }
    ensures empty { count_at s.entry.bytes.now at s.entry.end ≡ 0 → result ≡ false }
{
    says::lists::any_at::<Le<4>, _>(s, at, |p| outside_at(s, p, n))
}

// Where the children of a loop stand. The fields are written out, since each pass over them keeps other places.
fn children_at(s: Section, at: usize) -> usize
    ensures { result ≡ loop_children s.entry.bytes.now s.entry.end at }
{
    let parent = s.opt_num_at(at);
    let trigger = s.bytes_at(parent);
    let occurrences = Items::<Bytes>::ends_at(s, trigger);
    let usage = s.case_at(2, occurrences);
    let last = s.opt_bytes_at(usage);
    Opt::<Control>::ends_at(s, last)
}

// A loop whose children are known to stand at a place.
fn loop_outside(s: Section, at: usize, children: usize, n: usize) -> bool
    requires { children ≡ loop_children s.bytes.now s.end at }
    ensures { Says loop_c s.entry.bytes.now s.entry.end at (outside_loop n) result }
{
    opt_outside_at(s, at, n) | outsides_at(s, children, n)
}

fn loops_outside(loops: Loops, n: usize) -> bool
    ensures says { Says (list_c loop_c) loops.entry.section.bytes.now loops.entry.section.end loops.entry.at (any_of (outside_loop n)) result }
    ensures empty { count_at loops.entry.section.bytes.now loops.entry.at loops.entry.section.end ≡ 0 → result ≡ false }
{
    loops.some(|_k, p, children| loop_outside(loops.section, p, children, n))
}

fn table_outside(s: Section, at: usize, n: usize) -> bool
    ensures says { Says table_c s.entry.bytes.now s.entry.end at (outside_table n) result }
    ensures empty { count_at s.entry.bytes.now at s.entry.end ≡ 0 → result ≡ false }
{
    outsides_at(s, at, n)
}

fn tables_outside(s: Section, at: usize, n: usize) -> bool
    ensures says { Says (list_c table_c) s.entry.bytes.now s.entry.end at (any_of (outside_table n)) result }
    ensures empty { count_at s.entry.bytes.now at s.entry.end ≡ 0 → result ≡ false }
{
    says::lists::any_at::<Table, _>(s, at, |p| table_outside(s, p, n))
}

// Whether the loop that an item of an order names is found; where an item names none, nothing is.
pub fn named_at<T: Fn(usize) -> bool>(s: Section, at: usize, test: T) -> bool
    requires { T.IsAlwaysCallable test }
    ensures says { (f : ℕ → Bool) → Tests num_c s.entry.bytes.now s.entry.end (T.post test) f → Says item_c s.entry.bytes.now s.entry.end at (on_loop f) result }
    ensures there { tag_at s.entry.bytes.now at s.entry.end ≡ 1 → T.post test (skip (le_c 1) s.entry.bytes.now at s.entry.end) result }
    ensures none { tag_at s.entry.bytes.now at s.entry.end ≢ 1 → result ≡ false }
{
    if s.case(at) == Some(1) {
        return test(s.le_at(1, at));
    }
    false
}

fn item_outside(s: Section, at: usize, n: usize) -> bool
    ensures says { Says item_c s.entry.bytes.now s.entry.end at (on_loop (outside n)) result }
    ensures there { tag_at s.entry.bytes.now at s.entry.end ≡ 1 → result ≡ leb n (count_at s.entry.bytes.now (skip (le_c 1) s.entry.bytes.now at s.entry.end) s.entry.end) }
    ensures none { tag_at s.entry.bytes.now at s.entry.end ≢ 1 → result ≡ false }
{
    named_at(s, at, |p| outside_at(s, p, n))
}

fn order_outside(s: Section, at: usize, n: usize) -> bool
    ensures says { Says (list_c item_c) s.entry.bytes.now s.entry.end at (outside_order n) result }
    ensures empty { count_at s.entry.bytes.now at s.entry.end ≡ 0 → result ≡ false }
{
    says::lists::any_at::<Item, _>(s, at, |p| item_outside(s, p, n))
}

pub fn orders_outside(s: Section, at: usize, n: usize) -> bool
    ensures says { Says (list_c (list_c item_c)) s.entry.bytes.now s.entry.end at (any_of (outside_order n)) result }
    ensures empty { count_at s.entry.bytes.now at s.entry.end ≡ 0 → result ≡ false }
{
    says::lists::any_at::<Items<Item>, _>(s, at, |p| order_outside(s, p, n))
}

pub fn spec_outside(loops: Loops, roots: usize, tables: usize) -> bool
    requires { (roots ≡ spec_roots loops.section.bytes.now loops.section.end loops.at) × (tables ≡ spec_tables loops.section.bytes.now loops.section.end loops.at) }
    ensures says { Says spec_c loops.entry.section.bytes.now loops.entry.section.end loops.entry.at outside_spec result }
    ensures empty { count_at loops.entry.section.bytes.now loops.entry.at loops.entry.section.end ≡ 0 → count_at loops.entry.section.bytes.now roots loops.entry.section.end ≡ 0 → count_at loops.entry.section.bytes.now tables loops.entry.section.end ≡ 0 → result ≡ false }
{
    let s = loops.section;
    let n = s.count_at(loops.at);
    if loops_outside(loops, n) {
        return true;
    }
    if outsides_at(s, roots, n) {
        return true;
    }
    tables_outside(s, tables, n)
}

// ---- where the loops stand, and a number

// Where the loops and their children stand, as far as there is room; behind them the list stays as it was.
pub fn fill_places(s: Section, at: usize, places: &mut [(usize, usize)])
    ensures placed { Placed s.entry.bytes.now s.entry.end at places.new }
    ensures rest { let n = count_at s.entry.bytes.now at s.entry.end in drop n places.new ≡ drop n places.old }
{
    let n = s.count_at(at);
    let mut p = s.le_at(4, at);
    for k in 0..n {
        if places.len() <= k {
            return;
        }
        let children = children_at(s, p);
        places[k] = (p, children);
        p = s.les_at(4, children);
    }
}

// Whether the number at a place is i; where none stands, 0 does.
pub fn same_at(s: Section, at: usize, i: usize) -> bool
    ensures says { Says num_c s.entry.bytes.now s.entry.end at (eqb i) result }
    ensures number { result ≡ eqb i (count_at s.entry.bytes.now at s.entry.end) }
{
    i == s.count_at(at)
}

// ---- numbers that repeat

// Whether one of the names stands there twice.
pub fn names_repeat(names: &[usize]) -> bool
    ensures { result ≡ repeats names.now }
{
    for i in 0..names.len() {
        if names[i + 1..].contains(&names[i]) {
            return true;
        }
    }
    false
}

// The first numbers of a list, as far as there is room.
fn note_numbers(s: Section, at: usize, names: &mut [usize]) -> usize
    ensures { (length names.new ≡ length names.old) × ((result ≤ length names.new) × ((v : List ℕ) → Is (list_c num_c) s.entry.bytes.now s.entry.end at v → Noted v names.new result)) }
{
    let n = s.count_at(at);
    let mut p = s.le_at(4, at);
    for k in 0..n {
        if names.len() <= k {
            return k;
        }
        names[k] = s.count_at(p);
        p = s.le_at(4, p);
    }
    n
}

// Whether the number at a place is one of the rest behind it, from next on.
fn number_again(s: Section, at: usize, rest: usize, next: usize) -> bool
    ensures { SaysBefore num_c s.entry.bytes.now s.entry.end at rest next again result }
{
    let x = s.count_at(at);
    says::lists::any_rest::<Le<4>, _>(s, next, rest, |p| same_at(s, p, x))
}

// Whether a number stands in the list twice, by a search behind each.
fn numbers_searched(s: Section, at: usize) -> bool
    ensures { Says (list_c num_c) s.entry.bytes.now s.entry.end at repeats result }
{
    says::lists::any_before::<Le<4>, _>(s, at, |p, rest, next| number_again(s, p, rest, next))
}

// Some number stands in the list twice: numbers below 32 repeat within the first 33. The search is left for other lists.
pub fn repeats_at(s: Section, at: usize) -> bool
    ensures says { Says (list_c num_c) s.entry.bytes.now s.entry.end at repeats result }
    ensures few { count_at s.entry.bytes.now at s.entry.end < 2 → result ≡ false }
{
    if s.count_at(at) < 2 {
        return false;
    }
    let mut names = [0usize; 33];
    let noted = note_numbers(s, at, &mut names);
    if names_repeat(&names[..noted]) {
        return true;
    }
    if noted < 33 {
        return false;
    }
    numbers_searched(s, at)
}
