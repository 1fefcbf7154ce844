// Refusal 4: the loops are no forest that roots, tables and orders fit (docs/RULES.md, "Answer 4").
#![tactic(auto)]

ghost use Rattle.std.specs.Prelude.{◌≡◌, [], ◌++◌, ◌∷◌, List, ◌+◌, ◌<◌, ◌≤◌, ℕ, length, take, eqb, false};
ghost use Rattle.codec.specs.Codec.{list_c};
ghost use Rattle.codec.specs.Forms.{num_c, opt_c};
ghost use Rattle.codec.specs.Skip.{Is};
ghost use Rattle.codec.specs.Limits.{any_of};
ghost use Rattle.format.specs.Words.{any_from, if_some, times_in};
ghost use Rattle.format.specs.Spec.{Loop, loop_c, spec_c};
ghost use Rattle.format.specs.Layout.{Item, item_c};
ghost use Rattle.format.specs.Fields.{loop_children, spec_roots, spec_tables};
ghost use Rattle.format.specs.Refusal.{disagrees, loops_in, misordered, misrooted, not_child, not_parent, ringed, tangled};
ghost use Rattle.format.specs.Sections.{broken, job_of, plan_start, spoilt};
ghost use Rattle.says.specs.Says.{Says, SaysBefore};
ghost use Rattle.tree.specs.Parts.{on_loop, Noted};
ghost use Rattle.loops.specs.Parts.{repeats_in, again_in, misplaced, misplaced_in, repeats_below, tangled_spec};

use codec::forms::{Items, Le};
use codec::{Form, Section};
use tree::Loops;

// ---- parents and children

// A child whose parent is not i.
fn stranger_at(loops: Loops, at: usize, i: usize) -> bool
    ensures { (ls : List Loop) → Is (list_c loop_c) loops.entry.section.bytes.now loops.entry.section.end loops.entry.at ls → Says num_c loops.entry.section.bytes.now loops.entry.section.end at (not_parent ls i) result }
{
    let c = loops.section.count_at(at);
    !loops.parent_is(i, c)
}

fn strangers_at(loops: Loops, at: usize, i: usize) -> bool
    ensures { (ls : List Loop) → Is (list_c loop_c) loops.entry.section.bytes.now loops.entry.section.end loops.entry.at ls → Says (list_c num_c) loops.entry.section.bytes.now loops.entry.section.end at (any_of (not_parent ls i)) result }
{
    says::lists::any_at::<Le<4>, _>(loops.section, at, |p| stranger_at(loops, p, i))
}

// A parent that has no child i.
fn unlisted_at(loops: Loops, at: usize, i: usize) -> bool
    ensures { (ls : List Loop) → Is (list_c loop_c) loops.entry.section.bytes.now loops.entry.section.end loops.entry.at ls → Says num_c loops.entry.section.bytes.now loops.entry.section.end at (not_child ls i) result }
{
    let p = loops.section.count_at(at);
    !loops.is_child(i, p)
}

fn opt_unlisted_at(loops: Loops, at: usize, i: usize) -> bool
    ensures { (ls : List Loop) → Is (list_c loop_c) loops.entry.section.bytes.now loops.entry.section.end loops.entry.at ls → Says (opt_c num_c) loops.entry.section.bytes.now loops.entry.section.end at (if_some (not_child ls i)) result }
{
    says::lists::opt_at::<Le<4>, _>(loops.section, at, |p| unlisted_at(loops, p, i))
}

// A loop's children repeat. Asked of all loops first, so that no list of children that is looked through is long.
fn loops_repeat(loops: Loops) -> bool
    ensures { Says (list_c loop_c) loops.entry.section.bytes.now loops.entry.section.end loops.entry.at (any_of repeats_below) result }
{
    loops.some(|_k, _p, children| tree::repeats_at(loops.section, children))
}

// The loop i, whose children are known to stand at a place.
fn disagrees_at(loops: Loops, at: usize, children: usize, i: usize) -> bool
    requires { children ≡ loop_children loops.section.bytes.now loops.section.end at }
    ensures { (ls : List Loop) → Is (list_c loop_c) loops.entry.section.bytes.now loops.entry.section.end loops.entry.at ls → Says loop_c loops.entry.section.bytes.now loops.entry.section.end at (disagrees ls i) result }
{
    if tree::repeats_at(loops.section, children) {
        return true;
    }
    strangers_at(loops, children, i) | opt_unlisted_at(loops, at, i)
}

fn disagreements(loops: Loops) -> bool
    ensures { (ls : List Loop) → Is (list_c loop_c) loops.entry.section.bytes.now loops.entry.section.end loops.entry.at ls → Says (list_c loop_c) loops.entry.section.bytes.now loops.entry.section.end loops.entry.at (any_from (disagrees ls) 0) result }
{
    loops.some(|k, p, children| disagrees_at(loops, p, children, k))
}

// ---- rings and roots

fn ringed_at(loops: Loops, i: usize) -> bool
    ensures { (ls : List Loop) → Is (list_c loop_c) loops.entry.section.bytes.now loops.entry.section.end loops.entry.at ls → (v : Loop) → result ≡ ringed ls i v }
{
    let n = loops.section.count_at(loops.at);
    let mut l = i;
    for _k in 0..n {
        match loops.parent(l) {
            None => return false,
            Some(p) => l = p,
        }
    }
    true
}

fn rings(loops: Loops) -> bool
    ensures { (ls : List Loop) → Is (list_c loop_c) loops.entry.section.bytes.now loops.entry.section.end loops.entry.at ls → Says (list_c loop_c) loops.entry.section.bytes.now loops.entry.section.end loops.entry.at (any_from (ringed ls) 0) result }
{
    loops.some(|k, _p, _children| ringed_at(loops, k))
}

// How often x is in a list of numbers.
fn times_at(s: Section, at: usize, x: usize) -> usize
    ensures { Says (list_c num_c) s.entry.bytes.now s.entry.end at (times_in x) result }
{
    let n = s.count_at(at);
    let mut p = s.le_at(4, at);
    let mut t: usize = 0;
    for _i in 0..n {
        t = t + tree::same_at(s, p, x) as usize;
        p = s.le_at(4, p);
    }
    t
}

fn misrooted_at(s: Section, at: usize, roots: usize, i: usize) -> bool
    ensures { (rs : List ℕ) → Is (list_c num_c) s.entry.bytes.now s.entry.end roots rs → Says loop_c s.entry.bytes.now s.entry.end at (misrooted rs i) result }
{
    let t = times_at(s, roots, i);
    if s.case(at) == Some(1) {
        return t != 0;
    }
    t != 1
}

fn misroots(loops: Loops, roots: usize) -> bool
    ensures { (rs : List ℕ) → Is (list_c num_c) loops.entry.section.bytes.now loops.entry.section.end roots rs → Says (list_c loop_c) loops.entry.section.bytes.now loops.entry.section.end loops.entry.at (any_from (misrooted rs) 0) result }
{
    loops.some(|k, p, _children| misrooted_at(loops.section, p, roots, k))
}

// ---- orders; the loops stand in another section

// A loop that is no child of k.
fn misplaced_at(s: Section, at: usize, loops: Loops, k: usize) -> bool
    ensures { (ls : List Loop) → Is (list_c loop_c) loops.entry.section.bytes.now loops.entry.section.end loops.entry.at ls → Says num_c s.entry.bytes.now s.entry.end at (λ l. not_child ls l k) result }
{
    let l = s.count_at(at);
    !loops.is_child(l, k)
}

fn item_misplaced(s: Section, at: usize, loops: Loops, k: usize) -> bool
    ensures { (ls : List Loop) → Is (list_c loop_c) loops.entry.section.bytes.now loops.entry.section.end loops.entry.at ls → Says item_c s.entry.bytes.now s.entry.end at (misplaced ls k) result }
{
    tree::named_at(s, at, |p| misplaced_at(s, p, loops, k))
}

#[inline(always)]
fn items_misplaced(s: Section, at: usize, loops: Loops, k: usize) -> bool
    ensures { (ls : List Loop) → Is (list_c loop_c) loops.entry.section.bytes.now loops.entry.section.end loops.entry.at ls → Says (list_c item_c) s.entry.bytes.now s.entry.end at (misplaced_in ls k) result }
{
    says::lists::any_at::<format::Item, _>(s, at, |p| item_misplaced(s, p, loops, k))
}

fn item_same_at(s: Section, at: usize, x: usize) -> bool
    ensures { Says item_c s.entry.bytes.now s.entry.end at (on_loop (eqb x)) result }
{
    tree::named_at(s, at, |p| tree::same_at(s, p, x))
}

// Whether the item at a place names a loop that one of the rest behind it, from next on, names too.
fn item_again(s: Section, at: usize, rest: usize, next: usize) -> bool
    ensures { SaysBefore item_c s.entry.bytes.now s.entry.end at rest next again_in result }
{
    if s.case(at) == Some(1) {
        let p = s.le_at(1, at);
        let x = s.count_at(p);
        return says::lists::any_rest::<format::Item, _>(s, next, rest, |p| item_same_at(s, p, x));
    }
    false
}

// Whether an order names a loop twice, by a search behind each item.
fn order_searched(s: Section, at: usize) -> bool
    ensures { Says (list_c item_c) s.entry.bytes.now s.entry.end at repeats_in result }
{
    says::lists::any_before::<format::Item, _>(s, at, |p, rest, next| item_again(s, p, rest, next))
}

// Notes the loop that the item at a place names, behind k others.
fn note_name(s: Section, at: usize, names: &mut [usize], k: usize) -> usize
    requires { k < length names.old }
    ensures { (length names.new ≡ length names.old) × ((result ≤ k + 1) × ((y : Item) → Is item_c s.entry.bytes.now s.entry.end at y → take result names.new ≡ take k names.old ++ loops_in (y ∷ []))) }
{
    if s.case(at) == Some(1) {
        let p = s.le_at(1, at);
        names[k] = s.count_at(p);
        return k + 1;
    }
    k
}

// The loops that an order names, as far as there is room.
fn note_names(s: Section, at: usize, names: &mut [usize]) -> usize
    ensures { (length names.new ≡ length names.old) × ((result ≤ length names.new) × ((o : List Item) → Is (list_c item_c) s.entry.bytes.now s.entry.end at o → Noted (loops_in o) names.new result)) }
{
    let n = s.count_at(at);
    let mut p = s.le_at(4, at);
    let mut k: usize = 0;
    for _i in 0..n {
        if names.len() <= k {
            return k;
        }
        k = note_name(s, p, names, k);
        p = format::Item::ends_at(s, p);
    }
    k
}

// Whether an order names a loop twice: first among the first 33 loops that it names, and by `order_searched` where there are more, as
// `tree::repeats_at` does of a list.
fn order_repeats(s: Section, at: usize) -> bool
    ensures { Says (list_c item_c) s.entry.bytes.now s.entry.end at repeats_in result }
{
    if s.count_at(at) < 2 {
        return false;
    }
    let mut names = [0usize; 33];
    let named = note_names(s, at, &mut names);
    if tree::names_repeat(&names[..named]) {
        return true;
    }
    if named < 33 {
        return false;
    }
    order_searched(s, at)
}

#[inline(always)]
fn misordered_at(s: Section, at: usize, loops: Loops, k: usize) -> bool
    ensures { (ls : List Loop) → Is (list_c loop_c) loops.entry.section.bytes.now loops.entry.section.end loops.entry.at ls → Says (list_c item_c) s.entry.bytes.now s.entry.end at (misordered ls k) result }
{
    if order_repeats(s, at) {
        return true;
    }
    items_misplaced(s, at, loops, k)
}

fn misorders(s: Section, at: usize, loops: Loops) -> bool
    ensures { (ls : List Loop) → Is (list_c loop_c) loops.entry.section.bytes.now loops.entry.section.end loops.entry.at ls → Says (list_c (list_c item_c)) s.entry.bytes.now s.entry.end at (any_from (misordered ls) 0) result }
{
    says::lists::any_numbered::<Items<format::Item>, _>(s, at, |k, p| misordered_at(s, p, loops, k))
}

// ---- the whole

fn spec_tangled(loops: Loops, roots: usize) -> bool
    requires { roots ≡ spec_roots loops.section.bytes.now loops.section.end loops.at }
    ensures { Says spec_c loops.entry.section.bytes.now loops.entry.section.end loops.entry.at tangled_spec result }
{
    if loops_repeat(loops) {
        return true;
    }
    disagreements(loops) | rings(loops) | misroots(loops, roots)
}

// Refusal 4: the loops are no forest that roots, tables and orders fit. Where roots and tables stand is known.
pub fn tangled_at(b: &[u8], roots: usize, tables: usize) -> bool
    requires { (broken b.now ≡ false) × (spoilt b.now ≡ false) × (roots ≡ spec_roots b.now (plan_start b.now) 0) × (tables ≡ spec_tables b.now (plan_start b.now) 0) }
    ensures { result ≡ tangled (job_of b.now) }
{
    let plan = says::start(b, 4);
    let layout = says::start(b, 8);
    let envelope = says::start(b, 12);
    let spec = Section {
        bytes: b,
        end: plan,
    };
    let orders = Section {
        bytes: b,
        end: envelope,
    };
    let n = spec.count_at(0);
    let mut places = [(0usize, 0usize); 32];
    tree::fill_places(spec, 0, &mut places);
    let loops = Loops {
        section: spec,
        at: 0,
        places: &places,
    };
    if tree::spec_outside(loops, roots, tables) {
        return true;
    }
    if tree::orders_outside(orders, layout as usize, n) {
        return true;
    }
    // no list of roots that is counted through is long
    if tree::repeats_at(spec, roots) {
        return true;
    }
    if spec_tangled(loops, roots) {
        return true;
    }
    misorders(orders, layout as usize, loops)
}
