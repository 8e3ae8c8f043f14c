//! The searches that are made one after the other: with a small budget under the usual shifts, under better ones and by arcs,
//! then with a part of the budget under the better and with the whole under the usual ones, from what each valid list costs at least by arcs.
//! Where few prefixes do not suffice, a search goes on only once it is known by better shifts what each valid list costs at least:
//! below that it need not find out how far it comes.

ghost use Rattle.std.specs.Prelude.{◌≡◌, ◌≢◌, ◌≤◌, ◌<◌, IfNone, IfOk, IfSome, Err, option_map};
ghost use Rattle.vd_search_stages.specs.Selecting.{CostsAtLeast, IsOver, Selects};
ghost use Rattle.vd_space_prefix.specs.Tables.{AreTables};
ghost use Rattle.vd_search_stages.specs.Spending.{GivesOnly, IfUnended, IsOverBy, IsOverTwice, IsRootBound, IsSpent, IsSpentByArcs, early_part, late_part, network_part};
ghost use Rattle.vd_search_stages.specs.Stages.{CanSelect, Tries};
ghost use Rattle.vd_search.specs.declared.writing.SearchFault.TheVariants as search_fault;
ghost use Rattle.vd_space.specs.Sizes.{IsWithinLimits};
ghost use Rattle.vd_space.specs.Spaces.{tree_of};
ghost use Rattle.vd_space.specs.Usual.{usual as usual_shifts};
ghost use Rattle.vd_space.specs.WellFormed.{IsWellFormed};

use crate::network::try_arcs;
use crate::selecting::{Selection, select_by, usual_tables};
use crate::trying::Tried;
use std::alloc::{AllocError, Global};
use vd_cost_network_bound::Ascents;
use vd_search::SearchFault;
use vd_search_tree::Prefixes;
use vd_space::Problem;
use vd_space_prefix::{Path, Tables};
use vd_space_tables::tables;

/// The first search may open so many prefixes, and some more for each slot.
const FIRST_BUDGET: u32 = 1000;

const FIRST_BUDGET_OF_A_SLOT: u32 = 4;

/// A search by arcs may open so many prefixes, and one more for each slot.
const NETWORK_BUDGET: u32 = 256;

/// The search by better shifts behind that by arcs has so small a part of the budget.
const LATE_PART: u32 = 32;

/// The budget of the first search: enough where the usual shifts are good.
fn first_budget(problem: &Problem, budget: u32) -> u32
    requires limits { IsWithinLimits problem.now }
    ensures within { result ≤ budget }
    ensures part { result ≡ early_part problem.now budget }
{
    let slots = problem.slots.as_slice().len() as u32;
    budget.min(FIRST_BUDGET + FIRST_BUDGET_OF_A_SLOT * slots)
}

/// The budget of a search by arcs: enough where their shifts leave few ties, which else a walk breaks sooner.
pub(crate) fn network_budget(problem: &Problem, budget: u32) -> u32
    requires limits { IsWithinLimits problem.now }
    ensures within { result ≤ budget }
    ensures part { result ≡ network_part problem.now budget }
{
    let slots = problem.slots.as_slice().len() as u32;
    budget.min(NETWORK_BUDGET + slots)
}

/// The budget of the search by better shifts behind that by arcs.
fn late_budget(budget: u32) -> u32
    ensures within { result ≤ budget }
    ensures part { result ≡ late_part budget }
{
    budget / LATE_PART
}

/// The choice, or that there is none, by tables of shifts, where each valid list costs at least the floor; nothing where the
/// budget is spent.
fn try_by(
    alloc: Global,
    problem: &Problem,
    tables: &Tables,
    floor: u32,
    budget: u32,
) -> Result<Option<Selection>, SearchFault>
    requires tables { CanSelect problem.now tables.now }
    requires floor { CostsAtLeast problem.now floor }
    requires budget { budget < 4294967295 }
    ensures selects { IfOk result (λ found. IfSome found (Selects problem.now budget)) }
    ensures over { IfOk result (λ found. IfNone found (IsOver problem.now tables.now.shifts budget)) }
    ensures unspent { result ≢ Err search_fault.Spent }
{
    match select_by(alloc, problem, tables, floor, budget) {
        Ok(selection) => Ok(Some(selection)),
        Err(SearchFault::Spent) => Ok(None),
        Err(SearchFault::Memory) => Err(SearchFault::Memory),
    }
}

/// The tables of better shifts, where there are some.
fn better_tables<A: Ascents>(
    alloc: Global,
    ascents: &A,
    problem: &Problem,
) -> Result<Option<Tables>, AllocError>
    requires { IsWellFormed problem.now }
    ensures tables { IfOk result (λ found. IfSome found (CanSelect problem.now)) }
    ensures gives { IfOk result (λ found. A.uses_give ascents.now problem.now (option_map (λ t. t.shifts) found)) }
{
    match ascents.over_uses(alloc, problem)? {
        Some(shifts) => Ok(Some(tables(alloc, problem, shifts)?)),
        None => Ok(None),
    }
}

/// The choice, or that there is none, by these tables, where each valid list costs at least the floor; nothing where there are
/// none or the budget is spent.
pub(crate) fn try_some(
    alloc: Global,
    problem: &Problem,
    tables: &Option<Tables>,
    floor: u32,
    budget: u32,
) -> Result<Option<Selection>, SearchFault>
    requires tables { IfSome tables.now (CanSelect problem.now) }
    requires floor { CostsAtLeast problem.now floor }
    requires budget { budget < 4294967295 }
    ensures selects { IfOk result (λ found. IfSome found (Selects problem.now budget)) }
    ensures over { IfOk result (λ found. IfNone found (IsOverBy problem.now tables.now budget)) }
    ensures unspent { result ≢ Err search_fault.Spent }
{
    match tables {
        Some(tables) => try_by(alloc, problem, tables, floor, budget),
        None => Ok(None),
    }
}

/// The bound of all lists, from the empty prefix, where that is valid and the bound is a number of 32 bits.
fn bound_of_all(path: &Path) -> Option<u32>
    requires { path.now.depth ≡ 0 }
    ensures { IfSome result (IsRootBound (tree_of path.now.problem.now path.now.tables.now.shifts)) }
{
    if !path.is_valid() {
        return None;
    }
    match u32::try_from(path.bound()) {
        Ok(most) => Some(most),
        Err(_) => None,
    }
}

/// What each valid list costs at least, by these tables; 0 where they say nothing of it.
fn floor_of(alloc: Global, problem: &Problem, tables: &Tables) -> Result<u32, AllocError>
    requires { AreTables problem.now tables.now }
    ensures { IfOk result (CostsAtLeast problem.now) }
{
    let path = Path::new(alloc, problem, tables)?;
    match bound_of_all(&path) {
        Some(floor) => Ok(floor),
        None => Ok(0),
    }
}

/// The same, 0 also where there are no tables.
pub(crate) fn floor_by(
    alloc: Global,
    problem: &Problem,
    tables: &Option<Tables>,
) -> Result<u32, AllocError>
    requires well_formed { IsWellFormed problem.now }
    requires tables { IfSome tables.now (CanSelect problem.now) }
    ensures { IfOk result (CostsAtLeast problem.now) }
{
    match tables {
        Some(tables) => floor_of(alloc, problem, tables),
        None => Ok(0),
    }
}

/// The choice, or that there is none, by these tables with few prefixes, or by arcs, and by these with a small budget; where no
/// search ends, what each valid list costs at least by arcs.
fn try_few<A: Ascents>(
    alloc: Global,
    ascents: &A,
    problem: &Problem,
    tables: &Option<Tables>,
    budget: u32,
) -> Result<Tried, SearchFault>
    requires well_formed { IsWellFormed problem.now }
    requires tables { IfSome tables.now (CanSelect problem.now) }
    requires budget { budget < 4294967295 }
    ensures tries { IfOk result (Tries problem.now budget) }
    ensures over { IfOk result (IfUnended (IsOverBy problem.now tables.now budget)) }
    ensures arcs { IfOk result (IfUnended (GivesOnly (A.arcs_give ascents.now problem.now)
        (IsSpentByArcs problem.now (network_part problem.now budget) (A.walks_give ascents.now problem.now)))) }
    ensures unspent { result ≢ Err search_fault.Spent }
{
    match try_some(alloc, problem, tables, 0, network_budget(problem, budget))? {
        Some(selection) => Ok(Tried::Selected(selection)),
        None => try_arcs(alloc, ascents, problem, tables, budget),
    }
}

/// The choice, or that there is none, by the usual shifts from what each valid list costs at least by these better ones, by these,
/// or by arcs, with a small budget; where no search ends, what each valid list costs at least by arcs.
fn try_small<A: Ascents>(
    alloc: Global,
    ascents: &A,
    problem: &Problem,
    usual: &Tables,
    tables: &Option<Tables>,
    budget: u32,
) -> Result<Tried, SearchFault>
    requires usual { CanSelect problem.now usual.now }
    requires tables { IfSome tables.now (CanSelect problem.now) }
    requires budget { budget < 4294967295 }
    ensures tries { IfOk result (Tries problem.now budget) }
    ensures over { IfOk result (IfUnended (IsOverBy problem.now tables.now budget)) }
    ensures arcs { IfOk result (IfUnended (GivesOnly (A.arcs_give ascents.now problem.now)
        (IsSpentByArcs problem.now (network_part problem.now budget) (A.walks_give ascents.now problem.now)))) }
    ensures unspent { result ≢ Err search_fault.Spent }
{
    let floor = floor_by(alloc, problem, tables)?;
    match try_by(alloc, problem, usual, floor, budget)? {
        Some(selection) => Ok(Tried::Selected(selection)),
        None => try_few(alloc, ascents, problem, tables, budget),
    }
}

/// The choice, or that there is none, by these tables, where each valid list costs at least the floor; the floor where there
/// are none or the budget is spent.
pub(crate) fn try_above(
    alloc: Global,
    problem: &Problem,
    tables: &Option<Tables>,
    floor: u32,
    budget: u32,
) -> Result<Tried, SearchFault>
    requires tables { IfSome tables.now (CanSelect problem.now) }
    requires floor { CostsAtLeast problem.now floor }
    requires budget { budget < 4294967295 }
    ensures tries { IfOk result (Tries problem.now budget) }
    ensures over { IfOk result (IfUnended (IsOverBy problem.now tables.now budget)) }
    ensures unspent { result ≢ Err search_fault.Spent }
{
    match try_some(alloc, problem, tables, floor, budget)? {
        Some(selection) => Ok(Tried::Selected(selection)),
        None => Ok(Tried::Unended(floor)),
    }
}

/// The choice, or that there is none, by the usual shifts, by better ones or by arcs with a small budget, or by better shifts with
/// a greater one; where no search ends, what each valid list costs at least.
fn try_better<A: Ascents>(
    alloc: Global,
    ascents: &A,
    problem: &Problem,
    usual: &Tables,
    budget: u32,
) -> Result<Tried, SearchFault>
    requires usual { CanSelect problem.now usual.now }
    requires budget { budget < 4294967295 }
    ensures tries { IfOk result (Tries problem.now budget) }
    ensures uses { IfOk result (IfUnended (GivesOnly (A.uses_give ascents.now problem.now) (IsOverTwice problem.now budget))) }
    ensures arcs { IfOk result (IfUnended (GivesOnly (A.arcs_give ascents.now problem.now)
        (IsSpentByArcs problem.now (network_part problem.now budget) (A.walks_give ascents.now problem.now)))) }
    ensures unspent { result ≢ Err search_fault.Spent }
{
    let better = better_tables(alloc, ascents, problem)?;
    match try_small(
        alloc,
        ascents,
        problem,
        usual,
        &better,
        first_budget(problem, budget),
    )? {
        Tried::Selected(selection) => Ok(Tried::Selected(selection)),
        Tried::Unended(floor) => try_above(alloc, problem, &better, floor, late_budget(budget)),
    }
}

/// The choice, or that there is none, by the usual shifts with a small budget, by better ones, or by arcs; where no search
/// ends, what each valid list costs at least.
fn try_early<A: Ascents>(
    alloc: Global,
    ascents: &A,
    problem: &Problem,
    usual: &Tables,
    budget: u32,
) -> Result<Tried, SearchFault>
    requires usual { CanSelect problem.now usual.now }
    requires budget { budget < 4294967295 }
    ensures tries { IfOk result (Tries problem.now budget) }
    ensures uses { IfOk result (IfUnended (GivesOnly (A.uses_give ascents.now problem.now) (IsOverTwice problem.now budget))) }
    ensures arcs { IfOk result (IfUnended (GivesOnly (A.arcs_give ascents.now problem.now)
        (IsSpentByArcs problem.now (network_part problem.now budget) (A.walks_give ascents.now problem.now)))) }
    ensures unspent { result ≢ Err search_fault.Spent }
{
    match try_by(alloc, problem, usual, 0, network_budget(problem, budget))? {
        Some(selection) => Ok(Tried::Selected(selection)),
        None => try_better(alloc, ascents, problem, usual, budget),
    }
}

/// The choice for a problem, by places, or that no list of places is valid; with a certificate of that, which opens at
/// most so many prefixes. The budget is spent only where it does not suffice under the usual shifts, nor its parts under the shifts that
/// each of the ascents gives.
pub(crate) fn select_places<A: Ascents>(
    alloc: Global,
    ascents: &A,
    problem: &Problem,
    budget: u32,
) -> Result<Selection, SearchFault>
    requires well_formed { IsWellFormed problem.now }
    requires budget { budget < 4294967295 }
    ensures selects { IfOk result (Selects problem.now budget) }
    ensures spent { result ≡ Err search_fault.Spent → IsOver problem.now (usual_shifts problem.now) budget }
    ensures stages { result ≡ Err search_fault.Spent →
        IsSpent problem.now budget (A.uses_give ascents.now problem.now) (A.arcs_give ascents.now problem.now)
        (A.walks_give ascents.now problem.now) }
{
    let tables = usual_tables(alloc, problem)?;
    match try_early(alloc, ascents, problem, &tables, budget)? {
        Tried::Selected(selection) => Ok(selection),
        Tried::Unended(floor) => select_by(alloc, problem, &tables, floor, budget),
    }
}
