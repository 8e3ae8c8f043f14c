//! What slots and uses cost alone.

ghost use Rattle.vd_space.specs.Sizes.{IsWithinLimits};
ghost use Rattle.vd_space.specs.WellFormed.{AreProtocols};

use std::alloc::{AllocError, Global};
use vd_base::{Items, Proto, SlotId};
use vd_cost_network_dual::{FORBIDDEN_COST, UNIT};
use vd_cost_network_prefix::{ArcTable, NetworkTables, PointTable};
use vd_space::{Problem, Use};
use vd_space_tables::{merged_values, move_prices};

/// The tables of slots and uses without shifts, as far as sweeps look at them: what each costs by the places of the protocols. At
/// these places each slot may stand.
pub(crate) fn plain_tables(
    alloc: Global,
    problem: &Problem,
    list: &[Proto],
    candidates: &[Items<bool>],
) -> Result<NetworkTables, AllocError>
    requires list { AreProtocols problem.now list.now }
    requires limits { IsWithinLimits problem.now }
{
    Ok(NetworkTables {
        shifts: Items::new(alloc),
        points: points(alloc, problem, list)?,
        arcs: arcs(alloc, problem, list, candidates)?,
        switches: Items::new(alloc),
    })
}

/// What each slot costs.
fn points(alloc: Global, problem: &Problem, list: &[Proto]) -> Result<Items<PointTable>, AllocError>
    requires list { AreProtocols problem.now list.now }
    requires limits { IsWithinLimits problem.now }
{
    let mut points = Items::new(alloc);
    for slot in 0..problem.slots.as_slice().len() {
        let values = merged_values(alloc, problem, list, slot, &[])?;
        points.push(PointTable {
            costs: costs_of(alloc, values.as_slice())?,
            free: 0,
        })?;
    }
    Ok(points)
}

/// These costs in parts, and what counts for none.
fn costs_of(alloc: Global, values: &[Option<i64>]) -> Result<Items<i64>, AllocError> {
    let mut costs = Items::from_vec(Vec::with_capacity(alloc, values.len())?);
    for value in values {
        costs.push(cost_of(*value))?;
    }
    Ok(costs)
}

/// A cost in parts, and what counts for none.
fn cost_of(value: Option<i64>) -> i64 {
    match value {
        Some(value) => value.saturating_mul(UNIT),
        None => FORBIDDEN_COST,
    }
}

/// What each use costs.
fn arcs(
    alloc: Global,
    problem: &Problem,
    list: &[Proto],
    candidates: &[Items<bool>],
) -> Result<Items<ArcTable>, AllocError> {
    let moves = move_prices(alloc, list)?;
    let mut arcs = Items::new(alloc);
    for item in problem.uses.as_slice() {
        arcs.push(arc_of(alloc, item, moves.as_slice(), candidates)?)?;
    }
    Ok(arcs)
}

/// What a use costs, from the places at which its source may stand.
fn arc_of(
    alloc: Global,
    item: &Use,
    moves: &[Items<Option<u32>>],
    candidates: &[Items<bool>],
) -> Result<ArcTable, AllocError> {
    let tests = tests_at(candidates, item.source);
    Ok(ArcTable {
        first: u32::from(item.source.0),
        second: u32::from(item.target.0),
        cells: cells_of(alloc, item.weight, moves, tests)?,
        rows: Items::new(alloc),
        columns: Items::new(alloc),
        both: 0,
    })
}

/// At which places a slot may stand.
fn tests_at(candidates: &[Items<bool>], slot: SlotId) -> &[bool] {
    match candidates.get(usize::from(slot.0)) {
        Some(tests) => tests.as_slice(),
        None => &[],
    }
}

/// So often each price in parts, by rows, which are empty where the test fails.
fn cells_of(
    alloc: Global,
    weight: u32,
    moves: &[Items<Option<u32>>],
    tests: &[bool],
) -> Result<Items<Items<Option<i64>>>, AllocError> {
    let mut rows = Items::from_vec(Vec::with_capacity(alloc, moves.len())?);
    for (prices, test) in moves.iter().zip(tests) {
        if *test {
            rows.push(row_of(alloc, weight, prices.as_slice())?)?;
        } else {
            rows.push(Items::new(alloc))?;
        }
    }
    Ok(rows)
}

/// So often each price of a row, in parts.
fn row_of(
    alloc: Global,
    weight: u32,
    prices: &[Option<u32>],
) -> Result<Items<Option<i64>>, AllocError> {
    let mut row = Items::from_vec(Vec::with_capacity(alloc, prices.len())?);
    for price in prices {
        row.push(parts_of(weight, *price))?;
    }
    Ok(row)
}

/// So often the price, in parts.
fn parts_of(weight: u32, price: Option<u32>) -> Option<i64> {
    let once = i64::from(price?).saturating_mul(UNIT);
    Some(once.saturating_mul(i64::from(weight)))
}
