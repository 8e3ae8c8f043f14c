//! The search by arcs.

ghost use Rattle.std.specs.Prelude.{◌≡◌, ◌≢◌, ◌<◌, IfNone, IfOk, IfSome, Err, true};
ghost use Rattle.vd_space.specs.Network.{network_tree};
ghost use Rattle.vd_cost_network_prefix.specs.Tables.{AreNetworkTables};
ghost use Rattle.vd_search_stages.specs.Network.{CanUseArcs, HasArcShifts, Tells};
ghost use Rattle.vd_search_stages.specs.Selecting.{CostsAtLeast, Selects};
ghost use Rattle.vd_search_stages.specs.Spending.{GivesOnly, HasNoRootBound, IfUnended, IsOverBy, IsOverByArcs, IsRootBound, IsSpentByArcs, network_part};
ghost use Rattle.vd_search_stages.specs.Stages.{CanSelect, Tries};
ghost use Rattle.vd_search.specs.declared.writing.SearchFault.TheVariants as search_fault;
ghost use Rattle.vd_space.specs.WellFormed.{IsWellFormed};

use crate::arc_tables::ArcTables;
use crate::selecting::{Selection, refuted};
use crate::stages::{floor_by, network_budget, try_above, try_some};
use crate::trying::Tried;
use crate::walking::select_by_walk;
use std::alloc::{AllocError, Global};
use vd_base::Items;
use vd_cost_network_bound::{ArcAscent, Ascents};
use vd_cost_network_prefix::{NetworkPath, NetworkTables};
use vd_cost_network_tables::network_tables;
use vd_search::{Answer, SearchFault, search};
use vd_search_tree::{Certificate, Mark, Prefixes, Shift};
use vd_space::Problem;
use vd_space_prefix::Tables;
use vd_space_tables::tables;

/// The certificate of a least cost, with the shifts of arcs under which its marks are bounded.
fn network_certificate(
    alloc: Global,
    by_arcs: &NetworkTables,
    cost: u32,
    marks: Items<Mark>,
) -> Result<Certificate, AllocError>
    ensures { IfOk result (λ c. c ≡ record { cost = Some cost; by_arcs = true; shifts = by_arcs.now.shifts; marks = marks }) }
{
    let shifts = Items::from_slice(alloc, by_arcs.shifts.as_slice())?;
    Ok(Certificate {
        cost: Some(cost),
        by_arcs: true,
        shifts,
        marks,
    })
}

/// What a search by arcs answered, as a selection.
pub(crate) fn network_selection(
    alloc: Global,
    by_arcs: &NetworkTables,
    answer: Answer,
) -> Result<Selection, AllocError>
    ensures { IfOk result (Tells by_arcs.now answer) }
{
    match answer {
        Answer::Found(list, cost, marks) => {
            let certificate = network_certificate(alloc, by_arcs, cost, marks)?;
            Ok(Selection::Found(list, cost, certificate))
        }
        Answer::Empty(marks) => Ok(Selection::NoAssignment(refuted(alloc, marks))),
    }
}

/// The choice, or that there is none, by these tables; nothing where the budget is spent.
fn select_by_arcs(
    alloc: Global,
    tables: &ArcTables,
    budget: u32,
) -> Result<Option<Selection>, SearchFault>
    requires { budget < 4294967295 }
    ensures selects { IfOk result (λ found. IfSome found (Selects tables.now.problem.now budget)) }
    ensures over { IfOk result (λ found. IfNone found (IsOverByArcs tables.now.problem.now tables.now.by_arcs.now.shifts budget)) }
    ensures unspent { result ≢ Err search_fault.Spent }
{
    let mut path = NetworkPath::new(alloc, tables.problem, tables.plain, tables.by_arcs)?;
    match search(alloc, &mut path, budget) {
        Ok(answer) => {
            let selection = network_selection(alloc, tables.by_arcs, answer)?;
            Ok(Some(selection))
        }
        Err(SearchFault::Spent) => Ok(None),
        Err(SearchFault::Memory) => Err(SearchFault::Memory),
    }
}

/// The choice, or that there is none, by these tables, and where they leave too many ties by a walk; nothing where the budget is
/// spent.
fn select_network<A: Ascents>(
    alloc: Global,
    ascents: &A,
    tables: &ArcTables,
    ascent: A::Ascent,
    budget: u32,
) -> Result<Option<Selection>, SearchFault>
    requires { budget < 4294967295 }
    ensures selects { IfOk result (λ found. IfSome found (Selects tables.now.problem.now budget)) }
    ensures spent { IfOk result (λ found. IfNone found (IsSpentByArcs tables.now.problem.now budget
        (A.walks_give ascents.now tables.now.problem.now) tables.now.by_arcs.now.shifts)) }
    ensures unspent { result ≢ Err search_fault.Spent }
{
    match select_by_arcs(alloc, tables, budget)? {
        Some(selection) => Ok(Some(selection)),
        None => select_by_walk(alloc, ascents, tables, ascent, budget),
    }
}

/// The bound of all lists, from the empty prefix, where that is valid and the bound is a number of 32 bits.
pub(crate) fn bound_of_all(path: &NetworkPath) -> Option<u32>
    requires { path.now.depth ≡ 0 }
    ensures bound { IfSome result (IsRootBound (network_tree path.now.problem.now path.now.by_arcs.now.shifts)) }
    ensures none { IfNone result (HasNoRootBound (network_tree path.now.problem.now path.now.by_arcs.now.shifts)) }
{
    if !path.is_valid() {
        return None;
    }
    match u32::try_from(path.bound()) {
        Ok(most) => Some(most),
        Err(_) => None,
    }
}

/// What each valid list costs at least, by these tables; 0 where these say nothing of it.
fn floor_by_arcs(alloc: Global, tables: &ArcTables) -> Result<u32, AllocError>
    ensures { IfOk result (CostsAtLeast tables.now.problem.now) }
{
    let path = NetworkPath::new(alloc, tables.problem, tables.plain, tables.by_arcs)?;
    match bound_of_all(&path) {
        Some(floor) => Ok(floor),
        None => Ok(0),
    }
}

/// The choice, or that there is none, by the tables of better shifts of uses, from what each valid list costs at least by these
/// tables of arcs; by these with a part of the budget, and where they leave too many ties by a walk; what each valid list costs
/// at least by them where the budget is spent.
fn try_network<A: Ascents>(
    alloc: Global,
    ascents: &A,
    better: &Option<Tables>,
    tables: &ArcTables,
    ascent: A::Ascent,
    budget: u32,
) -> Result<Tried, SearchFault>
    requires better { IfSome better.now (CanSelect tables.now.problem.now) }
    requires budget { budget < 4294967295 }
    ensures tries { IfOk result (Tries tables.now.problem.now budget) }
    ensures over { IfOk result (IfUnended (IsOverBy tables.now.problem.now better.now budget)) }
    ensures spent { IfOk result (IfUnended (IsSpentByArcs tables.now.problem.now (network_part tables.now.problem.now budget)
        (A.walks_give ascents.now tables.now.problem.now) tables.now.by_arcs.now.shifts)) }
    ensures unspent { result ≢ Err search_fault.Spent }
{
    let floor = floor_by_arcs(alloc, tables)?;
    if let Some(selection) = try_some(alloc, tables.problem, better, floor, budget)? {
        return Ok(Tried::Selected(selection));
    }
    let part = network_budget(tables.problem, budget);
    match select_network(alloc, ascents, tables, ascent, part)? {
        Some(selection) => Ok(Tried::Selected(selection)),
        None => Ok(Tried::Unended(floor)),
    }
}

/// The tables of these shifts of arcs.
fn tables_of(
    alloc: Global,
    problem: &Problem,
    shifts: Items<Shift>,
) -> Result<NetworkTables, AllocError>
    requires well_formed { IsWellFormed problem.now }
    requires shifts { HasArcShifts problem.now shifts }
    ensures tables { IfOk result (CanUseArcs problem.now) }
    ensures shifts { IfOk result (λ by_arcs. by_arcs.shifts ≡ shifts) }
{
    network_tables(alloc, problem, shifts)
}

/// The same by the shifts of arcs that an ascent came to.
fn try_ascent<A: Ascents>(
    alloc: Global,
    ascents: &A,
    problem: &Problem,
    better: &Option<Tables>,
    without: &NetworkTables,
    found: ArcAscent<A::Ascent>,
    budget: u32,
) -> Result<Tried, SearchFault>
    requires better { IfSome better.now (CanSelect problem.now) }
    requires without { AreNetworkTables problem.now without.now }
    requires shifts { HasArcShifts problem.now found.shifts }
    requires budget { budget < 4294967295 }
    ensures tries { IfOk result (Tries problem.now budget) }
    ensures over { IfOk result (IfUnended (IsOverBy problem.now better.now budget)) }
    ensures spent { IfOk result (IfUnended
        (IsSpentByArcs problem.now (network_part problem.now budget) (A.walks_give ascents.now problem.now) found.shifts)) }
    ensures unspent { result ≢ Err search_fault.Spent }
{
    let ArcAscent { ascent, shifts } = found;
    let by_arcs = tables_of(alloc, problem, shifts)?;
    let plain = tables(alloc, problem, Items::new(alloc))?;
    let tables = ArcTables {
        problem,
        plain: &plain,
        without,
        by_arcs: &by_arcs,
    };
    try_network(alloc, ascents, better, &tables, ascent, budget)
}

/// The choice, or that there is none, by these tables of better shifts of uses, by the shifts of arcs that an ascent gives, and
/// where these leave too many ties by a walk; else what each valid list costs at least. Where there are no shifts of arcs, the
/// better ones of uses say that.
pub(crate) fn try_arcs<A: Ascents>(
    alloc: Global,
    ascents: &A,
    problem: &Problem,
    better: &Option<Tables>,
    budget: u32,
) -> Result<Tried, SearchFault>
    requires well_formed { IsWellFormed problem.now }
    requires better { IfSome better.now (CanSelect problem.now) }
    requires budget { budget < 4294967295 }
    ensures tries { IfOk result (Tries problem.now budget) }
    ensures over { IfOk result (IfUnended (IsOverBy problem.now better.now budget)) }
    ensures arcs { IfOk result (IfUnended (GivesOnly (A.arcs_give ascents.now problem.now)
        (IsSpentByArcs problem.now (network_part problem.now budget) (A.walks_give ascents.now problem.now)))) }
    ensures unspent { result ≢ Err search_fault.Spent }
{
    let without = network_tables(alloc, problem, Items::new(alloc))?;
    match ascents.over_arcs(alloc, problem, &without)? {
        Some(found) => try_ascent(alloc, ascents, problem, better, &without, found, budget),
        None => {
            let floor = floor_by(alloc, problem, better)?;
            try_above(alloc, problem, better, floor, budget)
        }
    }
}
