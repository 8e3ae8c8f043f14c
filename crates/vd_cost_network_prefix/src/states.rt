//! What a prefix decides of each point.

ghost use Rattle.std.specs.Prelude.{◌≡◌, if◌then◌else◌, None, IfOk, is_some, length, slice_get};
ghost use Rattle.std.specs.List.{list_all};
ghost use Rattle.std.specs.Option.{option_map_or};
ghost use Rattle.vd_space.specs.Points.{decided, switched, switches};
ghost use Rattle.vd_cost_network_prefix.specs.States.{AreSwitchTables, count_of_points, guard_state, states_of, table_state};
ghost use Rattle.vd_space.specs.Validity.{protocols};

use crate::made::SwitchTable;
use std::alloc::{AllocError, Global};
use vd_base::{Items, Proto, SlotId};
use vd_space::{Guard, Problem, is_part};

/// What a switch that is off, and one that is on, stands at.
const OFF: u32 = 0;

const ON: u32 = 1;

/// Where the slot stands, if it is decided.
fn slot_state(prefix: &[u32], slot: SlotId) -> Option<u32>
    ensures { result ≡ slice_get prefix.now slot.0 }
{
    prefix.get(usize::from(slot.0)).copied()
}

/// Whether all of the slots are decided.
fn are_decided(prefix: &[u32], slots: &[SlotId]) -> bool
    ensures { result ≡ list_all (λ slot. is_some (slice_get prefix.now slot.0)) slots.now }
{
    for slot in slots {
        if slot_state(prefix, *slot).is_none() {
            return false;
        }
    }
    true
}

/// Whether the prefix turns a switch of the guard on or off.
fn guard_state(
    problem: &Problem,
    list: &[Proto],
    prefix: &[u32],
    switch: &SwitchTable,
    guard: &Guard,
) -> Option<u32>
    requires list { list.now ≡ protocols problem.now }
    ensures { result ≡ guard_state problem.now prefix.now switch.now guard.now }
{
    if is_part(problem, list, prefix, guard, switch.host) {
        Some(ON)
    } else if are_decided(prefix, switch.members.as_slice()) {
        Some(OFF)
    } else {
        None
    }
}

/// Whether the prefix turns a switch on or off, by its table.
fn state_of(problem: &Problem, list: &[Proto], switch: &SwitchTable, prefix: &[u32]) -> Option<u32>
    requires list { list.now ≡ protocols problem.now }
    ensures { result ≡ table_state problem.now prefix.now switch.now }
{
    match problem.guards.as_slice().get(switch.guard as usize) {
        Some(guard) => guard_state(problem, list, prefix, switch, guard),
        None => None,
    }
}

/// Whether the prefix turns the switch with that number on or off.
fn switch_state(
    problem: &Problem,
    list: &[Proto],
    tables: &[SwitchTable],
    prefix: &[u32],
    number: usize,
) -> Option<u32>
    requires list { list.now ≡ protocols problem.now }
    requires switches { AreSwitchTables problem.now tables.now }
    ensures { result ≡ option_map_or (switched problem.now prefix.now) (slice_get (switches problem.now) number) None }
{
    match tables.get(number) {
        Some(switch) => state_of(problem, list, switch, prefix),
        None => None,
    }
}

/// What the prefix decides of a point.
pub(crate) fn point_state(
    problem: &Problem,
    list: &[Proto],
    tables: &[SwitchTable],
    prefix: &[u32],
    point: usize,
) -> Option<u32>
    requires list { list.now ≡ protocols problem.now }
    requires switches { AreSwitchTables problem.now tables.now }
    ensures { result ≡ decided problem.now prefix.now point }
{
    let slots = problem.slots.as_slice().len();
    if point < slots {
        prefix.get(point).copied()
    } else {
        switch_state(problem, list, tables, prefix, point - slots)
    }
}

/// Writes down what the prefix decides of each point.
pub fn decide(
    states: &mut Items<Option<u32>>,
    problem: &Problem,
    list: &[Proto],
    tables: &[SwitchTable],
    prefix: &[u32],
)
    requires list { list.now ≡ protocols problem.now }
    requires switches { AreSwitchTables problem.now tables.now }
    requires room { length states.old ≡ count_of_points problem.now }
    ensures { states.new ≡ states_of problem.now prefix.now }
{
    let count = states.as_slice().len();
    for point in 0..count {
        states.set(point, point_state(problem, list, tables, prefix, point));
    }
}

/// Room for what is decided of so many points.
pub fn undecided(alloc: Global, count: usize) -> Result<Items<Option<u32>>, AllocError>
    ensures { IfOk result (λ states. length states ≡ count) }
{
    let mut states = Items::new(alloc);
    for _ in 0..count {
        states.push(None)?;
    }
    Ok(states)
}
