//! What points cost alone, without shifts.

ghost use Rattle.std.specs.Prelude.{◌≡◌, ◌<◌, IfOk, OnOk, length};
ghost use Rattle.vd_space.specs.Arcs.{switch_value};
ghost use Rattle.vd_space.specs.Points.{switch_of};
ghost use Rattle.vd_cost_network_bound.specs.Bounds.{values_at};
ghost use Rattle.vd_cost_network_prefix.specs.States.{count_of_points};
ghost use Rattle.vd_cost_network_tables.specs.Tables.{switch_tables_from};
ghost use Rattle.vd_space_prefix.specs.Transfers.{by_place};
ghost use Rattle.vd_space.specs.Labelled.{IsLabelled};
ghost use Rattle.vd_space.specs.Sizes.{IsWithinLimits};
ghost use Rattle.vd_space.specs.Spaces.{IsProblem};
ghost use Rattle.vd_space.specs.WellFormed.{AreProtocols, IsWellFormed};

use std::alloc::{AllocError, Global};
use vd_base::{HostId, Items, Proto};
use vd_cost_network_prefix::SwitchTable;
use vd_cost_network_tables::slot_costs;
use vd_space::{Guard, Problem, can_read};
use vd_space_tables::merged_values;

/// What a slot alone costs, by place.
fn slot_values(
    alloc: Global,
    problem: &Problem,
    list: &[Proto],
    slot: usize,
) -> Result<Items<Option<i64>>, AllocError>
    requires list { AreProtocols problem.now list.now }
    requires limits { IsWithinLimits problem.now }
    requires slot { slot < length problem.now.slots }
    ensures { IfOk result (λ values. values ≡ values_at problem.now slot) }
{
    let values = merged_values(alloc, problem, list, slot, &[])?;
    slot_costs(alloc, problem, list, slot, values.as_slice(), &[])
}

/// What the switch of a guard and a host alone costs, off and on: it is on only where the host may read the guard.
fn switch_values(
    alloc: Global,
    problem: &Problem,
    guard: &Guard,
    host: HostId,
) -> Result<Items<Option<i64>>, AllocError>
    requires labelled { IsLabelled problem.now }
    requires host { host.0 < length problem.now.hosts }
    ensures { IfOk result (λ values. values ≡ by_place 2 (λ v. switch_value problem.now v (switch_of guard.now host))) }
{
    let on = if can_read(problem, host, guard.slot) {
        Some(0)
    } else {
        None
    };
    Items::from_slice(alloc, &[Some(0), on])
}

/// What each slot alone costs.
fn all_slot_values(
    alloc: Global,
    problem: &Problem,
    list: &[Proto],
) -> Result<Items<Items<Option<i64>>>, AllocError>
    requires list { AreProtocols problem.now list.now }
    requires limits { IsWithinLimits problem.now }
    ensures { IfOk result (λ values. values ≡ by_place (length problem.now.slots) (values_at problem.now)) }
{
    let mut values = Items::new(alloc);
    for slot in 0..problem.slots.as_slice().len() {
        values.push(slot_values(alloc, problem, list, slot)?)?;
    }
    Ok(values)
}

/// Puts what each switch alone costs behind what slots do.
fn push_switch_values(
    alloc: Global,
    problem: &Problem,
    switches: &[SwitchTable],
    values: &mut Items<Items<Option<i64>>>,
) -> Result<(), AllocError>
    requires holds { IsProblem problem.now }
    requires labelled { IsLabelled problem.now }
    requires switches { switches.now ≡ switch_tables_from problem.now 0 problem.now.guards }
    requires slots { values.old ≡ by_place (length problem.now.slots) (values_at problem.now) }
    ensures { OnOk result (values.new ≡ by_place (count_of_points problem.now) (values_at problem.now)) }
{
    let guards = problem.guards.as_slice();
    for number in 0..switches.len() {
        let switch = &switches[number];
        let guard = &guards[switch.guard as usize];
        values.push(switch_values(alloc, problem, guard, switch.host)?)?;
    }
    Ok(())
}

/// What each point alone costs, by setting.
pub(crate) fn point_values(
    alloc: Global,
    problem: &Problem,
    list: &[Proto],
    switches: &[SwitchTable],
) -> Result<Items<Items<Option<i64>>>, AllocError>
    requires well_formed { IsWellFormed problem.now }
    requires list { AreProtocols problem.now list.now }
    requires switches { switches.now ≡ switch_tables_from problem.now 0 problem.now.guards }
    ensures { IfOk result (λ values. values ≡ by_place (count_of_points problem.now) (values_at problem.now)) }
{
    let mut values = all_slot_values(alloc, problem, list)?;
    push_switch_values(alloc, problem, switches, &mut values)?;
    Ok(values)
}
