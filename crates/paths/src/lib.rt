// The plan check but for places: the first four conditions of a complete plan (docs/RULES.md, "A complete plan").
#![tactic(auto)]

ghost use Rattle.std.specs.Prelude.{◌≡◌, eqb, get_or, [], ◌∷◌};
ghost use Rattle.std.specs.List.{list_all};
ghost use Rattle.codec.specs.Codec.{le};
ghost use Rattle.paths.specs.Tests.{condition1, condition3, condition4};
ghost use Rattle.paths.specs.Entries.{Orders};
ghost use Rattle.complete.specs.Complete.{Entries};
ghost use Rattle.complete.specs.Decides.{Decides};
ghost use Rattle.nest.specs.Job.{outline_by, job_by};

use crate::each::{
    loops_anchored, loops_fit, loops_ordered, loops_plain, parents_plain, tables_once,
    tables_planned,
};
use nest::Job;
use plan::index::{CAPACITY, COLUMNS, DEPTH, FORCED, ORDER, PLAN, list_count};

pub mod below;
pub mod counts;
pub mod each;
pub mod order;
pub mod repeats;
pub mod up;

// Whether the lists of plan and layout with one entry a loop have n.
fn lists_fit(job: Job, n: u32) -> bool
    ensures { result ≡ list_all (λ k. eqb (le 4 job.entry.at.bytes.now (get_or job.entry.at.index.now k 0)) n) (1024 ∷ 1057 ∷ 1090 ∷ 1123 ∷ 1156 ∷ []) }
{
    let lists = [PLAN, ORDER, FORCED, COLUMNS, DEPTH];
    lists.iter().all(|k| list_count(job.at, *k) == n)
}

// Whether plan and layout have one entry a loop, capacities and data one a table.
pub fn entries_fit(job: Job) -> bool
    ensures { Decides result (Entries (job_by job.entry)) }
{
    let n = spec::loops::loop_count(job.at);
    let fit = lists_fit(job, n);
    if !fit {
        return false;
    }
    let all = spec::tables::table_count(job.at);
    let capacity = list_count(job.at, CAPACITY);
    if capacity != all {
        return false;
    }
    let data = tables::data::data_count(job.at);
    data == all
}

// Row loops of a complete plan (docs/RULES.md, "Row loops").
#[tactic(auto, unfolding(crate::specs::Tests::condition1))]
pub fn rows_fit(job: Job) -> bool
    ensures { result ≡ condition1 (outline_by job.entry) }
{
    tables_once(job) && loops_plain(job)
}

// Entries, parents and orders of a complete plan (docs/RULES.md, "Entries and orders").
pub fn orders_fit(job: Job) -> bool
    ensures { Decides result (Orders (job_by job.entry)) }
{
    entries_fit(job) && parents_plain(job) && loops_ordered(job)
}

// What stands above a row loop of a complete plan (docs/RULES.md, "Above a row loop").
#[tactic(auto, unfolding(crate::specs::Tests::condition3))]
pub fn paths_fit(job: Job) -> bool
    ensures { result ≡ condition3 (outline_by job.entry) }
{
    loops_fit(job)
}

// Repeat segments of a complete plan (docs/RULES.md, "Repeat loops"). The tables come first: where they pass, a loop plans one repeat segment of each
// table that it anchors, so that no table's list of loops is gone through more than once a loop afterwards.
#[tactic(auto, unfolding(crate::specs::Tests::condition4))]
pub fn repeats_fit(job: Job) -> bool
    ensures { result ≡ condition4 (outline_by job.entry) }
{
    tables_planned(job) && loops_anchored(job)
}
