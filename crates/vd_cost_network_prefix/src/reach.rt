//! What a choice may change: the points that a slot may decide, and the arcs that a point has.

ghost use Rattle.std.specs.Prelude.{◌≡◌, ◌∷◌, ◌++◌, [], IfOk, OnOk, if◌then◌else◌, false, length, slice_get};
ghost use Rattle.std.specs.Option.{option_map_or};
ghost use Rattle.vd_space.specs.declared.problem.Guard.{Guard as Guards};
ghost use Rattle.vd_cost_network_prefix.specs.Reach.{IsReach, changed_by, has_end, arcs_at, may_change, may_turn, names_slot};
ghost use Rattle.vd_space_prefix.specs.Transfers.{by_place};

use crate::made::{ArcTable, NetworkTables, SwitchTable};
use std::alloc::{AllocError, Global};
use vd_base::{Items, SlotId};
use vd_space::Problem;

/// What depends on slots and points.
#[derive(Drop)]
pub(crate) struct Reach {
    /// By slot: the points that it may change.
    pub points: Items<Items<usize>>,
    /// By point: the arcs that have it at an end.
    pub arcs: Items<Items<usize>>,
}

/// Whether the slot is one of these.
fn is_among(slots: &[SlotId], slot: usize) -> bool
    ensures { result ≡ names_slot slot slots.now }
{
    for other in slots {
        if usize::from(other.0) == slot {
            return true;
        }
    }
    false
}

/// Whether the slot is in the branches of the guard with that number.
fn is_in_branches(problem: &Problem, guard: u32, slot: usize) -> bool
    ensures { result ≡ option_map_or (λ (guard : Guards). names_slot slot guard.slots) (slice_get problem.now.guards guard) false }
{
    match problem.guards.as_slice().get(guard as usize) {
        Some(guard) => is_among(guard.slots.as_slice(), slot),
        None => false,
    }
}

/// Whether what is decided of the slot may turn the switch.
fn may_turn(problem: &Problem, switch: &SwitchTable, slot: usize) -> bool
    ensures { result ≡ may_turn problem.now slot switch.now }
{
    is_among(switch.members.as_slice(), slot) || is_in_branches(problem, switch.guard, slot)
}

/// Whether what is decided of the slot may turn the switch with that number.
fn may_turn_at(problem: &Problem, switches: &[SwitchTable], number: usize, slot: usize) -> bool
    ensures { result ≡ option_map_or (may_turn problem.now slot) (slice_get switches.now number) false }
{
    match switches.get(number) {
        Some(switch) => may_turn(problem, switch, slot),
        None => false,
    }
}

/// Whether the point is the slot's own, or that of a switch that the slot may turn.
fn may_change(problem: &Problem, switches: &[SwitchTable], slot: usize, point: usize) -> bool
    ensures { result ≡ may_change problem.now switches.now slot point }
{
    let slots = problem.slots.as_slice().len();
    if point < slots {
        point == slot
    } else {
        may_turn_at(problem, switches, point - slots, slot)
    }
}

/// Puts the number at the end, where the test passes.
fn push_if(numbers: &mut Items<usize>, number: usize, test: bool) -> Result<(), AllocError>
    ensures { OnOk result (numbers.new ≡ numbers.old ++ (if test then number ∷ [] else [])) }
{
    if test { numbers.push(number) } else { Ok(()) }
}

/// The points that the slot may change.
fn changed_by(
    alloc: Global,
    problem: &Problem,
    tables: &NetworkTables,
    slot: usize,
) -> Result<Items<usize>, AllocError>
    ensures { IfOk result (λ changed. changed ≡ changed_by problem.now tables.now slot) }
{
    let switches = tables.switches.as_slice();
    let count = tables.points.as_slice().len();
    let mut changed = Items::new(alloc);
    for point in 0..count {
        push_if(
            &mut changed,
            point,
            may_change(problem, switches, slot, point),
        )?;
    }
    Ok(changed)
}

/// Whether the point is at an end of the arc.
fn has_end(arc: &ArcTable, point: usize) -> bool
    ensures { result ≡ has_end point arc.now }
{
    arc.first as usize == point || arc.second as usize == point
}

/// The numbers of the arcs that have the point at an end.
fn arcs_at(alloc: Global, arcs: &[ArcTable], point: usize) -> Result<Items<usize>, AllocError>
    ensures { IfOk result (λ numbers. numbers ≡ arcs_at arcs.now point) }
{
    let mut numbers = Items::new(alloc);
    for (number, arc) in arcs.iter().enumerate() {
        if has_end(arc, point) {
            numbers.push(number)?;
        }
    }
    Ok(numbers)
}

/// The points that each of so many slots may change.
fn points_by_slot(
    alloc: Global,
    problem: &Problem,
    tables: &NetworkTables,
    slots: usize,
) -> Result<Items<Items<usize>>, AllocError>
    ensures { IfOk result (λ rows. rows ≡ by_place slots (changed_by problem.now tables.now)) }
{
    let mut rows = Items::new(alloc);
    for slot in 0..slots {
        rows.push(changed_by(alloc, problem, tables, slot)?)?;
    }
    Ok(rows)
}

/// The arcs of each of so many points.
fn arcs_by_point(
    alloc: Global,
    arcs: &[ArcTable],
    points: usize,
) -> Result<Items<Items<usize>>, AllocError>
    ensures { IfOk result (λ rows. rows ≡ by_place points (arcs_at arcs.now)) }
{
    let mut rows = Items::new(alloc);
    for point in 0..points {
        rows.push(arcs_at(alloc, arcs, point)?)?;
    }
    Ok(rows)
}

impl Reach {
    /// What choices may change by the tables of a problem.
    pub fn of(alloc: Global, problem: &Problem, tables: &NetworkTables) -> Result<Reach, AllocError>
        ensures { IfOk result (IsReach problem.now tables.now) }
    {
        let slots = problem.slots.as_slice().len();
        let points = tables.points.as_slice().len();
        Ok(Reach {
            points: points_by_slot(alloc, problem, tables, slots)?,
            arcs: arcs_by_point(alloc, tables.arcs.as_slice(), points)?,
        })
    }
}
