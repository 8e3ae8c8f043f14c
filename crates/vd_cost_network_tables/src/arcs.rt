//! The arcs without shifts, in the order of their numbers: of uses, of indexes, and of switches.

ghost use Rattle.std.specs.Prelude.{◌≡◌, ◌+◌, ◌<◌, ◌≤◌, ℕ, [], None, IfOk, length, map, slice_get, slice_index_or, unwrap_or, All};
ghost use Rattle.std.specs.Option.{option_map_or};
ghost use Rattle.vd_base.specs.HostSets.{host as nth_host};
ghost use Rattle.vd_base.specs.Limits.{most_weights};
ghost use Rattle.vd_base.specs.Moves.{move_at};
ghost use Rattle.vd_base.specs.declared.protocols.Proto.TheVariants.{Local as local};
ghost use Rattle.vd_space.specs.Arcs.{parts};
ghost use Rattle.vd_cost_network_tables.specs.Raws.{guard_cells, index_raw, member_cells, member_raw, raws_by, scaled_cells, switch_raws, use_raw};
ghost use Rattle.vd_space_prefix.specs.Transfers.{ArePrices};
ghost use Rattle.vd_space.specs.Costs.{weigh};
ghost use Rattle.vd_space.specs.Sizes.{IsWithinLimits};
ghost use Rattle.vd_space.specs.declared.problem.Use.{Use as Uses};
ghost use Rattle.vd_space.specs.declared.problem.Index.{Index as Indexes};
ghost use Rattle.vd_space.specs.WellFormed.{AreProtocols};
ghost use Rattle.vd_cost_network_tables.specs.Sources.{AreBothPrices};

use crate::raw::RawArc;
use std::alloc::{AllocError, Global};
use vd_base::{HostId, Items, Proto, SlotId, is_holder};
use vd_cost::move_cost;
use vd_cost_network_prefix::SwitchTable;
use vd_protocol::joins;
use vd_space::{Guard, Index, Problem, Use};

/// A unit of cost, in parts.
pub(crate) const UNIT: i64 = 256;

/// So often the price, in parts.
fn scaled(weight: u32, price: Option<u32>) -> Option<i64>
    requires weight { weight ≤ most_weights }
    requires price { unwrap_or price 0 ≤ 848 }
    ensures { result ≡ parts (weigh weight price) }
{
    match price {
        Some(price) => Some(i64::from(weight * price) * UNIT),
        None => None,
    }
}

/// So often each price of a row, in parts.
fn scaled_row(
    alloc: Global,
    weight: u32,
    prices: &[Option<u32>],
) -> Result<Items<Option<i64>>, AllocError>
    requires weight { weight ≤ most_weights }
    requires prices { (q : ℕ) → unwrap_or (slice_index_or prices.now q None) 0 ≤ 848 }
    ensures { IfOk result (λ row. row ≡ map (λ price. parts (weigh weight price)) prices.now) }
{
    let mut row = Items::from_vec(Vec::with_capacity(alloc, prices.len())?);
    for price in prices {
        row.push(scaled(weight, *price))?;
    }
    Ok(row)
}

/// So often each price of a table, in parts.
fn scaled_table(
    alloc: Global,
    weight: u32,
    prices: &[Items<Option<u32>>],
) -> Result<Items<Items<Option<i64>>>, AllocError>
    requires weight { weight ≤ most_weights }
    requires prices { ArePrices prices.now }
    ensures { IfOk result (λ rows. rows ≡ scaled_cells weight prices.now) }
{
    let mut rows = Items::from_vec(Vec::with_capacity(alloc, prices.len())?);
    for row in prices {
        rows.push(scaled_row(alloc, weight, row.as_slice())?)?;
    }
    Ok(rows)
}

/// The arcs of uses.
fn use_arcs(
    alloc: Global,
    moves: &[Items<Option<u32>>],
    uses: &[Use],
) -> Result<Items<RawArc>, AllocError>
    requires prices { ArePrices moves.now }
    requires weights { All (λ (u : Uses). u.weight ≤ most_weights) uses.now }
    ensures { IfOk result (λ arcs. arcs ≡ map (use_raw moves.now) uses.now) }
{
    let mut arcs = Items::new(alloc);
    for item in uses {
        arcs.push(RawArc {
            first: u32::from(item.source.0),
            second: u32::from(item.target.0),
            cells: scaled_table(alloc, item.weight, moves)?,
        })?;
    }
    Ok(arcs)
}

/// The arcs of indexes, from the array to the index.
fn index_arcs(
    alloc: Global,
    tells: &[Items<Option<u32>>],
    indexes: &[Index],
) -> Result<Items<RawArc>, AllocError>
    requires prices { ArePrices tells.now }
    requires weights { All (λ (i : Indexes). i.weight ≤ most_weights) indexes.now }
    ensures { IfOk result (λ arcs. arcs ≡ map (index_raw tells.now) indexes.now) }
{
    let mut arcs = Items::new(alloc);
    for index in indexes {
        arcs.push(RawArc {
            first: u32::from(index.array.0),
            second: u32::from(index.index.0),
            cells: scaled_table(alloc, index.weight, tells)?,
        })?;
    }
    Ok(arcs)
}

/// What it costs to tell a value to a host, where that can be done.
fn told_price(from: Proto, host: HostId) -> Option<u32>
    ensures { result ≡ move_at from (local host) }
{
    let to = Proto::Local(host);
    if joins(from, to) {
        Some(move_cost(from, to))
    } else {
        None
    }
}

/// What the arc of a guard costs, by place: nothing where the switch is off, and else what it costs to tell the guard to
/// the host.
fn guard_costs(
    alloc: Global,
    list: &[Proto],
    weight: u32,
    host: HostId,
) -> Result<Items<Items<Option<i64>>>, AllocError>
    requires weight { weight ≤ most_weights }
    requires prices { (p : ℕ) → unwrap_or (move_at (slice_index_or list.now p (local (nth_host 0))) (local host)) 0 ≤ 848 }
    ensures { IfOk result (λ cells. cells ≡ guard_cells list.now weight host) }
{
    let mut cells = Items::from_vec(Vec::with_capacity(alloc, list.len())?);
    for protocol in list {
        let told = scaled(weight, told_price(*protocol, host));
        cells.push(Items::from_slice(alloc, &[Some(0), told])?)?;
    }
    Ok(cells)
}

/// What the arc of a member costs, by place: nothing, and it cannot be where the switch is off and the slot is kept at the
/// host.
fn member_costs(
    alloc: Global,
    list: &[Proto],
    host: HostId,
) -> Result<Items<Items<Option<i64>>>, AllocError>
    ensures { IfOk result (λ cells. cells ≡ member_cells list.now host) }
{
    let mut cells = Items::from_vec(Vec::with_capacity(alloc, list.len())?);
    for protocol in list {
        let off = if is_holder(*protocol, host) {
            None
        } else {
            Some(0)
        };
        cells.push(Items::from_slice(alloc, &[off, Some(0)])?)?;
    }
    Ok(cells)
}

/// The arcs of the members of the switch that is this point.
fn member_arcs(
    alloc: Global,
    list: &[Proto],
    point: u32,
    host: HostId,
    members: &[SlotId],
) -> Result<Items<RawArc>, AllocError>
    ensures { IfOk result (λ arcs. arcs ≡ map (member_raw list.now point host) members.now) }
{
    let mut arcs = Items::new(alloc);
    for member in members {
        arcs.push(RawArc {
            first: u32::from(member.0),
            second: point,
            cells: member_costs(alloc, list, host)?,
        })?;
    }
    Ok(arcs)
}

/// The arcs of the switch that is this point: its guard's, and then its members'.
fn switch_arcs(
    alloc: Global,
    list: &[Proto],
    point: u32,
    switch: &SwitchTable,
    guard: &Guard,
) -> Result<Items<RawArc>, AllocError>
    requires weight { guard.now.weight ≤ most_weights }
    requires prices { (p : ℕ) → unwrap_or (move_at (slice_index_or list.now p (local (nth_host 0))) (local switch.now.host)) 0 ≤ 848 }
    ensures { IfOk result (λ arcs. arcs ≡ switch_raws list.now point switch.now guard.now) }
{
    let mut arcs = Items::new(alloc);
    arcs.push(RawArc {
        first: u32::from(guard.slot.0),
        second: point,
        cells: guard_costs(alloc, list, guard.weight, switch.host)?,
    })?;
    let members = switch.members.as_slice();
    arcs.append(member_arcs(alloc, list, point, switch.host, members)?)?;
    Ok(arcs)
}

/// The arcs of the switch that is this point, whose table names its guard.
fn arcs_of_switch(
    alloc: Global,
    problem: &Problem,
    list: &[Proto],
    point: u32,
    switch: &SwitchTable,
) -> Result<Items<RawArc>, AllocError>
    requires limits { IsWithinLimits problem.now }
    requires list { AreProtocols problem.now list.now }
    ensures { IfOk result (λ arcs. arcs ≡ option_map_or (switch_raws list.now point switch.now)
        (slice_get problem.now.guards switch.now.guard) []) }
{
    match problem.guards.as_slice().get(switch.guard as usize) {
        Some(guard) => switch_arcs(alloc, list, point, switch, guard),
        None => Ok(Items::new(alloc)),
    }
}

/// All arcs of the problem.
pub(crate) fn raw_arcs(
    alloc: Global,
    problem: &Problem,
    list: &[Proto],
    moves: &[Items<Option<u32>>],
    tells: &[Items<Option<u32>>],
    switches: &[SwitchTable],
) -> Result<Items<RawArc>, AllocError>
    requires limits { IsWithinLimits problem.now }
    requires list { AreProtocols problem.now list.now }
    requires prices { AreBothPrices moves.now tells.now }
    requires points { length problem.now.slots + length switches.now < 4294967296 }
    ensures { IfOk result (λ raws. raws ≡ raws_by problem.now list.now moves.now tells.now switches.now) }
{
    let mut arcs = use_arcs(alloc, moves, problem.uses.as_slice())?;
    arcs.append(index_arcs(alloc, tells, problem.indexes.as_slice())?)?;
    let slots = problem.slots.as_slice().len();
    for number in 0..switches.len() {
        let point = (slots + number) as u32;
        arcs.append(arcs_of_switch(alloc, problem, list, point, &switches[number])?)?;
    }
    Ok(arcs)
}
