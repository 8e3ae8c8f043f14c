//! The search by arcs where ties at the bound of the root are broken by a walk.

ghost use Rattle.std.specs.Prelude.{◌≡◌, ◌≢◌, ◌<◌, IfNone, IfOk, IfSome, Err};
ghost use Rattle.std.specs.List.{All};
ghost use Rattle.vd_space.specs.Network.{network_tree};
ghost use Rattle.vd_cost_network_bound.specs.Ascents.{IsBeyond};
ghost use Rattle.vd_search_stages.specs.Selecting.{Selects};
ghost use Rattle.vd_search_stages.specs.Spending.{GivesOnly, IsOverByWalk};
ghost use Rattle.vd_search.specs.declared.writing.SearchFault.TheVariants as search_fault;
ghost use Rattle.vd_search.specs.Untied.{WhySpent};

use crate::arc_tables::ArcTables;
use crate::network::{bound_of_all, network_selection};
use crate::selecting::Selection;
use std::alloc::Global;
use vd_base::Items;
use vd_cost_network_bound::Ascents;
use vd_cost_network_prefix::NetworkPath;
use vd_search::{SearchFault, search_untied};

/// The choice, or that there is none, where ties are broken by prefixes that begin no list of that cost; nothing where the budget
/// is spent, or the least cost is another.
fn select_untied(
    alloc: Global,
    tables: &ArcTables,
    passed: Items<Items<u32>>,
    most: u32,
    budget: u32,
) -> Result<Option<Selection>, SearchFault>
    requires passed { All (IsBeyond tables.now.problem.now most) passed }
    requires budget { budget < 4294967295 }
    ensures selects { IfOk result (λ found. IfSome found (Selects tables.now.problem.now budget)) }
    ensures over { IfOk result (λ found. IfNone found
        (WhySpent (network_tree tables.now.problem.now tables.now.by_arcs.now.shifts) most passed budget)) }
    ensures unspent { result ≢ Err search_fault.Spent }
{
    let root = NetworkPath::new(alloc, tables.problem, tables.plain, tables.by_arcs)?;
    match search_untied(alloc, root, passed, most, budget) {
        Ok(answer) => {
            let selection = network_selection(alloc, tables.by_arcs, answer)?;
            Ok(Some(selection))
        }
        Err(SearchFault::Spent) => Ok(None),
        Err(SearchFault::Memory) => Err(SearchFault::Memory),
    }
}

/// The choice, or that there is none, where a walk to lists of that cost breaks ties, which begins at this path; nothing where the
/// budget is spent, or the least cost is another.
fn select_at<A: Ascents>(
    alloc: Global,
    ascents: &A,
    tables: &ArcTables,
    path: NetworkPath,
    ascent: A::Ascent,
    most: u32,
    budget: u32,
) -> Result<Option<Selection>, SearchFault>
    requires path { path.problem.now ≡ tables.now.problem.now }
    requires budget { budget < 4294967295 }
    ensures selects { IfOk result (λ found. IfSome found (Selects tables.now.problem.now budget)) }
    ensures over { IfOk result (λ found. IfNone found (GivesOnly (A.walks_give ascents.now tables.now.problem.now most)
        (λ passed. WhySpent (network_tree tables.now.problem.now tables.now.by_arcs.now.shifts) most passed budget))) }
    ensures unspent { result ≢ Err search_fault.Spent }
{
    match ascents.over_prefixes(alloc, tables.problem, tables.without, path, ascent, most)? {
        Some(passed) => select_untied(alloc, tables, passed, most, budget),
        None => Ok(None),
    }
}

/// The choice, or that there is none, by these tables, where a walk breaks the ties at the bound of all lists; nothing where the
/// budget is spent, or the least cost is above that.
pub(crate) fn select_by_walk<A: Ascents>(
    alloc: Global,
    ascents: &A,
    tables: &ArcTables,
    ascent: A::Ascent,
    budget: u32,
) -> Result<Option<Selection>, SearchFault>
    requires { budget < 4294967295 }
    ensures selects { IfOk result (λ found. IfSome found (Selects tables.now.problem.now budget)) }
    ensures over { IfOk result (λ found. IfNone found (IsOverByWalk tables.now.problem.now tables.now.by_arcs.now.shifts budget
        (A.walks_give ascents.now tables.now.problem.now))) }
    ensures unspent { result ≢ Err search_fault.Spent }
{
    let path = NetworkPath::new(alloc, tables.problem, tables.plain, tables.by_arcs)?;
    match bound_of_all(&path) {
        Some(most) => select_at(alloc, ascents, tables, path, ascent, most, budget),
        None => Ok(None),
    }
}
