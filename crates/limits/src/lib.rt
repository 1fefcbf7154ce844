// Refusal 3: a limit is passed (docs/RULES.md, "Limits"). Each function tells whether whatever stands at a place passes one.
#![tactic(auto)]

ghost use Rattle.std.specs.Prelude.{◌≡◌, ℕ, Option, Some, None, false};
ghost use Rattle.codec.specs.Codec.{◌⊗◌, list_c, pick};
ghost use Rattle.codec.specs.Forms.{bytes_c, num_c, opt_c};
ghost use Rattle.codec.specs.Limits.{any_of};
ghost use Rattle.format.specs.Words.{if_some};
ghost use Rattle.codec.specs.Skip.{Is};
ghost use Rattle.format.specs.Fields.{spec_roots, spec_tables};
ghost use Rattle.format.specs.Spec.{component_c, control_c, element_c, loop_c, repeat_c, segment_c, Spec, spec_c, table_c, version_c};
ghost use Rattle.format.specs.Layout.{layout_c};
ghost use Rattle.format.specs.Refusal.{large, over, over_component, over_control, over_data, over_element, over_element_plan, over_loop, over_loop_plan, over_segment, over_segment_plan, over_spec, over_step, over_table, over_table_data, over_version};
ghost use Rattle.format.specs.Plan.{element_plan_c, loop_plan_c, segment_plan_c};
ghost use Rattle.format.specs.Data.{table_data_c};
ghost use Rattle.format.specs.Sections.{broken, job_of, plan_start, spoilt};
ghost use Rattle.says.specs.Says.{Says, Clears};
ghost use Rattle.limits.specs.Parts.{over_layout, over_sized, over_tables, sizes_behind, sizes_min, ClearParts};

use codec::forms::{Bytes, Flag, Items, Le, Les, NumMap, Opt};
use codec::{Form, Section};
use format::{
    Column, Component, Control, Element, ElementPlan, Filler, Instances, Item, Kind, Loop,
    LoopPlan, Repeat, SegmentPlan, Source, Table, Version,
};

// Where roots and tables of the spec stand.
#[derive(Clone, Copy)]
pub struct Parts {
    pub roots: usize,
    pub tables: usize,
}

// ---- spec

fn large_at(s: Section, at: usize) -> bool
    ensures { Says num_c s.entry.bytes.now s.entry.end at large result }
{
    255 < s.count_at(at)
}

fn opt_large_at(s: Section, at: usize) -> bool
    ensures { Says (opt_c num_c) s.entry.bytes.now s.entry.end at (if_some large) result }
{
    says::lists::opt_at::<Le<4>, _>(s, at, |p| large_at(s, p))
}

fn larges_at(s: Section, at: usize) -> bool
    ensures { Says (list_c num_c) s.entry.bytes.now s.entry.end at (any_of large) result }
{
    says::lists::any_at::<Le<4>, _>(s, at, |p| large_at(s, p))
}

fn control_over(s: Section, at: usize) -> bool
    ensures { Says control_c s.entry.bytes.now s.entry.end at over_control result }
{
    let closer = s.le_at(4, at);
    let count = s.le_at(4, closer);
    let x = large_at(s, at);
    let y = large_at(s, closer);
    let z = large_at(s, count);
    x | y | z
}

fn opt_control_over(s: Section, at: usize) -> bool
    ensures { Says (opt_c control_c) s.entry.bytes.now s.entry.end at (if_some over_control) result }
{
    says::lists::opt_at::<Control, _>(s, at, |p| control_over(s, p))
}

// The fields one after the other, written out, since each pass over them keeps other places.
fn loop_over(s: Section, at: usize) -> Option<usize>
    ensures { Clears loop_c s.entry.bytes.now s.entry.end at over_loop result }
{
    let parent = s.opt_num_at(at);
    let trigger = s.bytes_at(parent);
    let occurrences = Items::<Bytes>::ends_at(s, trigger);
    let usage = s.case_at(2, occurrences);
    let last = s.opt_bytes_at(usage);
    let control = Opt::<Control>::ends_at(s, last);
    if 32 < s.count_at(trigger) {
        return None;
    }
    if opt_control_over(s, last) {
        return None;
    }
    Some(s.les_at(4, control))
}

fn loops_over(s: Section, at: usize) -> Option<usize>
    ensures { Clears (list_c loop_c) s.entry.bytes.now s.entry.end at (any_of over_loop) result }
{
    says::lists::list_clear::<Loop, _>(s, at, |p| loop_over(s, p))
}

// The number and the sizes of a component or an element: where they end, if none passes a limit.
#[inline(always)]
fn sized_over(s: Section, at: usize) -> Option<usize>
    ensures { (n : ℕ) (m : Option ℕ) → Is num_c s.entry.bytes.now s.entry.end at n → Is (opt_c num_c) s.entry.bytes.now s.entry.end (sizes_min s.entry.bytes.now s.entry.end at) m → result ≡ pick (over_sized n m) None (Some (sizes_behind s.entry.bytes.now s.entry.end at)) }
{
    let value = s.le_at(4, at);
    let kind = Kind::ends_at(s, value);
    // where the kind ends is known
    let min = s.opt_num_at(kind);
    let max = s.opt_num_at(min);
    if large_at(s, at) {
        return None;
    }
    if opt_large_at(s, kind) {
        return None;
    }
    Some(max)
}

// A component and its number.
fn component_over(s: Section, at: usize) -> Option<usize>
    ensures { Clears (num_c ⊗ component_c) s.entry.bytes.now s.entry.end at over_component result }
{
    let max = sized_over(s, at)?;
    Some(Items::<Bytes>::ends_at(s, max))
}

fn components_over(s: Section, at: usize) -> Option<usize>
    ensures { Clears (list_c (num_c ⊗ component_c)) s.entry.bytes.now s.entry.end at (any_of over_component) result }
{
    says::lists::list_clear::<(Le<4>, Component), _>(s, at, |p| component_over(s, p))
}

// An element and its number.
fn element_over(s: Section, at: usize) -> Option<usize>
    ensures { Clears (num_c ⊗ element_c) s.entry.bytes.now s.entry.end at over_element result }
{
    let max = sized_over(s, at)?;
    let codes = components_over(s, max)?;
    Some(Items::<Bytes>::ends_at(s, codes))
}

fn elements_over(s: Section, at: usize) -> Option<usize>
    ensures { Clears (list_c (num_c ⊗ element_c)) s.entry.bytes.now s.entry.end at (any_of over_element) result }
{
    says::lists::list_clear::<(Le<4>, Element), _>(s, at, |p| element_over(s, p))
}

// A segment and its identifier.
fn segment_over(s: Section, at: usize) -> Option<usize>
    ensures { Clears (bytes_c ⊗ segment_c) s.entry.bytes.now s.entry.end at over_segment result }
{
    let value = s.bytes_at(at);
    elements_over(s, value)
}

fn segments_over(s: Section, at: usize) -> Option<usize>
    ensures { Clears (list_c (bytes_c ⊗ segment_c)) s.entry.bytes.now s.entry.end at (any_of over_segment) result }
{
    says::lists::list_clear::<(Bytes, NumMap<Element>), _>(s, at, |p| segment_over(s, p))
}

fn step_over(s: Section, at: usize) -> bool
    ensures { Says repeat_c s.entry.bytes.now s.entry.end at over_step result }
{
    let step = s.le_at(4, at);
    large_at(s, step)
}

fn opt_step_over(s: Section, at: usize) -> bool
    ensures { Says (opt_c repeat_c) s.entry.bytes.now s.entry.end at (if_some over_step) result }
{
    says::lists::opt_at::<Repeat, _>(s, at, |p| step_over(s, p))
}

// Written out as `loop_over`.
fn table_over(s: Section, at: usize) -> Option<usize>
    ensures { Clears table_c s.entry.bytes.now s.entry.end at over_table result }
{
    let loops = s.les_at(4, at);
    let segment = s.case_at(2, loops);
    let repeat = Opt::<Repeat>::ends_at(s, segment);
    let columns = s.le_at(4, repeat);
    let parent = s.opt_num_at(columns);
    if 32 < s.count_at(repeat) {
        return None;
    }
    if opt_step_over(s, segment) {
        return None;
    }
    Some(s.les_at(4, parent))
}

fn tables_over(s: Section, at: usize) -> Option<usize>
    ensures { Clears (list_c table_c) s.entry.bytes.now s.entry.end at (any_of over_table) result }
{
    says::lists::list_clear::<Table, _>(s, at, |p| table_over(s, p))
}

fn version_over(s: Section, at: usize) -> bool
    ensures { Says version_c s.entry.bytes.now s.entry.end at over_version result }
{
    let segment = s.bytes_at(at);
    large_at(s, segment)
}

fn opt_version_over(s: Section, at: usize) -> bool
    ensures { Says (opt_c version_c) s.entry.bytes.now s.entry.end at (if_some over_version) result }
{
    says::lists::opt_at::<Version, _>(s, at, |p| version_over(s, p))
}

fn spec_over(s: Section, at: usize) -> Option<Parts>
    ensures { (v : Spec) → Is spec_c s.entry.bytes.now s.entry.end at v → ClearParts result (over_spec v) (spec_roots s.entry.bytes.now s.entry.end at) (spec_tables s.entry.bytes.now s.entry.end at) }
{
    if 32 < s.count_at(at) {
        return None;
    }
    let roots = loops_over(s, at)?;
    let segments = s.les_at(4, roots);
    let tables = segments_over(s, segments)?;
    if 16 < s.count_at(tables) {
        return None;
    }
    let version = tables_over(s, tables)?;
    if opt_version_over(s, version) {
        return None;
    }
    Some(Parts { roots, tables })
}

// ---- plan and layout

fn element_plan_over(s: Section, at: usize) -> Option<usize>
    ensures { Clears element_plan_c s.entry.bytes.now s.entry.end at over_element_plan result }
{
    let element = s.le_at(4, at);
    let component = s.opt_num_at(element);
    if large_at(s, at) {
        return None;
    }
    if opt_large_at(s, element) {
        return None;
    }
    Some(Filler::ends_at(s, component))
}

fn element_plans_over(s: Section, at: usize) -> Option<usize>
    ensures { Clears (list_c element_plan_c) s.entry.bytes.now s.entry.end at (any_of over_element_plan) result }
{
    says::lists::list_clear::<ElementPlan, _>(s, at, |p| element_plan_over(s, p))
}

fn segment_plan_over(s: Section, at: usize) -> Option<usize>
    ensures { Clears segment_plan_c s.entry.bytes.now s.entry.end at over_segment_plan result }
{
    let occurrence = s.le_at(4, at);
    let source = Source::ends_at(s, occurrence);
    element_plans_over(s, source)
}

fn segment_plans_over(s: Section, at: usize) -> Option<usize>
    ensures { Clears (list_c segment_plan_c) s.entry.bytes.now s.entry.end at (any_of over_segment_plan) result }
{
    says::lists::list_clear::<SegmentPlan, _>(s, at, |p| segment_plan_over(s, p))
}

fn loop_plan_over(s: Section, at: usize) -> Option<usize>
    ensures { Clears loop_plan_c s.entry.bytes.now s.entry.end at over_loop_plan result }
{
    let instances = Instances::ends_at(s, at);
    if 32 < s.count_at(instances) {
        return None;
    }
    segment_plans_over(s, instances)
}

fn plan_over(s: Section, at: usize) -> Option<usize>
    ensures { Clears (list_c loop_plan_c) s.entry.bytes.now s.entry.end at (any_of over_loop_plan) result }
{
    says::lists::list_clear::<LoopPlan, _>(s, at, |p| loop_plan_over(s, p))
}

// The capacities.
fn layout_over(s: Section, at: usize) -> bool
    ensures { Says layout_c s.entry.bytes.now s.entry.end at over_layout result }
{
    let order = Items::<Items<Item>>::ends_at(s, at);
    let forced = Items::<Items<Flag>>::ends_at(s, order);
    let columns = Items::<Les<4>>::ends_at(s, forced);
    let depth = Items::<Opt<Le<4>>>::ends_at(s, columns);
    larges_at(s, depth)
}

// ---- data

// Written out as `loop_over`.
fn table_data_over(s: Section, at: usize) -> Option<usize>
    ensures { Clears table_data_c s.entry.bytes.now s.entry.end at over_table_data result }
{
    let rows = s.le_at(4, at);
    let row = Opt::<Column>::ends_at(s, rows);
    let segment = Opt::<Column>::ends_at(s, row);
    let refs = Items::<(Le<4>, Opt<Column>)>::ends_at(s, segment);
    if 32 < s.count_at(refs) {
        return None;
    }
    Some(Items::<Opt<Column>>::ends_at(s, refs))
}

// Each table, and the rows of all together.
fn table_datas_over(s: Section, at: usize) -> bool
    ensures { Says (list_c table_data_c) s.entry.bytes.now s.entry.end at over_tables result }
{
    let n = s.count_at(at);
    let mut p = s.le_at(4, at);
    let mut rows: usize = 0;
    for _i in 0..n {
        rows = rows + s.count_at(p);
        if 4096 < rows {
            return true;
        }
        match table_data_over(s, p) {
            None => return true,
            Some(q) => p = q,
        }
    }
    false
}

fn data_over(s: Section, at: usize) -> bool
    ensures { Says (list_c table_data_c) s.entry.bytes.now s.entry.end at over_data result }
{
    (16 < s.count_at(at)) | table_datas_over(s, at)
}

// ---- the whole

// Refusal 3: a limit is passed. Where none is, it tells where the spec's parts stand.
pub fn over_at(b: &[u8]) -> Option<Parts>
    requires { (broken b.now ≡ false) × (spoilt b.now ≡ false) }
    ensures { ClearParts result (over (job_of b.now)) (spec_roots b.now (plan_start b.now) 0) (spec_tables b.now (plan_start b.now) 0) }
{
    let plan = says::start(b, 4);
    let layout = says::start(b, 8);
    let envelope = says::start(b, 12);
    let data = says::start(b, 16);
    let t = says::trailer(b);
    let parts = spec_over(
        Section {
            bytes: b,
            end: plan,
        },
        0,
    )?;
    plan_over(
        Section {
            bytes: b,
            end: layout,
        },
        plan as usize,
    )?;
    if layout_over(
        Section {
            bytes: b,
            end: envelope,
        },
        layout as usize,
    ) {
        return None;
    }
    if data_over(Section { bytes: b, end: t }, data as usize) {
        return None;
    }
    Some(parts)
}
