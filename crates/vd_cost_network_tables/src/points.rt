//! The tables of all points: of the slots, and of the switches behind them.

ghost use Rattle.std.specs.Prelude.{◌≡◌, ◌||◌, ◌<◌, ◌≤◌, ◌+ℤ◌, ◌∷◌, ℕ, None, [], IfOk, OnOk, length, not, option_map, pos, slice_index_or, true, unwrap_or};
ghost use Rattle.std.specs.List.{list_all};
ghost use Rattle.vd_base.specs.Limits.{most_certificate_shifts};
ghost use Rattle.vd_space.specs.Arcs.{index_readable, parts, slot_value};
ghost use Rattle.vd_space.specs.Points.{switch_of};
ghost use Rattle.vd_cost_network_prefix.specs.States.{AreSmallPoints, count_of_points};
ghost use Rattle.vd_cost_network_tables.specs.Tables.{own_value, point_tables_of, switch_tables_from, switch_values, table_by, table_of_values, tests_of};
ghost use Rattle.vd_space_prefix.specs.Transfers.{IsWithin, by_place};
ghost use Rattle.vd_space.specs.Bounds.{only_if};
ghost use Rattle.vd_space.specs.Labelled.{IsLabelled};
ghost use Rattle.vd_space.specs.Sizes.{IsWithinLimits};
ghost use Rattle.vd_space.specs.Validity.{all_hosts, holds_at, may_read, protocols};
ghost use Rattle.vd_space.specs.WellFormed.{AreProtocols, IsWellFormed};
ghost use Rattle.vd_cost_network_tables.specs.Sources.{AreSettingsOf, AreSumsByPoint, IsNetworkOf};

use crate::arcs::UNIT;
use crate::cells::{point_table, value_at};
use crate::raw::RawArc;
use std::alloc::{AllocError, Global};
use vd_base::{HostId, Items, Proto, SlotId, is_holder, protocol_at};
use vd_cost_network_prefix::{PointTable, SwitchTable};
use vd_search_tree::Shift;
use vd_space::{Guard, Index, Problem, can_read};
use vd_space_prefix::amount_at;
use vd_space_tables::{Rows, merged_values, shift_sums};

/// Whether the place is not kept at the host, or the host may read the index.
fn can_host_read(problem: &Problem, list: &[Proto], place: u32, host: HostId, index: SlotId) -> bool
    requires list { AreProtocols problem.now list.now }
    requires host { host.0 < length problem.now.hosts }
    ensures { result ≡ (not (holds_at problem.now host place) || may_read problem.now host index.0) }
{
    !is_holder(protocol_at(list, place), host) || can_read(problem, host, index)
}

/// Whether each host at which an array would be kept may read the index.
fn can_hosts_read(problem: &Problem, list: &[Proto], place: u32, index: SlotId) -> bool
    requires { AreProtocols problem.now list.now }
    ensures { result ≡ list_all (λ h. not (holds_at problem.now h place) || may_read problem.now h index.0) (all_hosts problem.now) }
{
    let hosts = problem.hosts.as_slice().len() as u8;
    for host in 0..hosts {
        if !can_host_read(problem, list, place, HostId(host), index) {
            return false;
        }
    }
    true
}

/// Whether the index is none of the slot's, or can be read where the slot would be kept.
fn is_readable(problem: &Problem, list: &[Proto], slot: usize, place: u32, index: &Index) -> bool
    requires { AreProtocols problem.now list.now }
    ensures { result ≡ index_readable problem.now slot place index.now }
{
    usize::from(index.array.0) != slot || can_hosts_read(problem, list, place, index.index)
}

/// Whether each host at which the slot would be kept may read each of its indexes.
fn can_read_indexes(problem: &Problem, list: &[Proto], slot: usize, place: u32) -> bool
    requires { AreProtocols problem.now list.now }
    ensures { result ≡ list_all (index_readable problem.now slot place) problem.now.indexes }
{
    for index in problem.indexes.as_slice() {
        if !is_readable(problem, list, slot, place, index) {
            return false;
        }
    }
    true
}

/// The cost in parts, where the slot may be kept so, with what shifts put on it.
fn own_cost(readable: bool, cost: Option<i64>, amount: i64) -> Option<i64>
    requires cost { IsWithin 2199023255552 (unwrap_or cost (pos 0)) }
    requires amount { IsWithin 562949953421312 amount }
    ensures { result ≡ option_map (λ c. c +ℤ amount) (only_if readable (parts cost)) }
{
    match (readable, cost) {
        (true, Some(number)) => Some(number * UNIT + amount),
        _ => None,
    }
}

/// What the slot alone costs by place, in parts, with what shifts put on it: `values` has its operation and outputs in units.
pub fn slot_costs(
    alloc: Global,
    problem: &Problem,
    list: &[Proto],
    slot: usize,
    values: &[Option<i64>],
    amounts: &[i64],
) -> Result<Items<Option<i64>>, AllocError>
    requires list { AreProtocols problem.now list.now }
    requires values { (p : ℕ) → IsWithin 2199023255552 (unwrap_or (slice_index_or values.now p None) (pos 0)) }
    requires amounts { (p : ℕ) → IsWithin 562949953421312 (slice_index_or amounts.now p (pos 0)) }
    ensures { IfOk result (λ costs. costs ≡ by_place (length list.now) (own_value problem.now slot values.now amounts.now)) }
{
    let mut costs = Items::new(alloc);
    for place in 0..list.len() {
        let readable = can_read_indexes(problem, list, slot, place as u32);
        costs.push(own_cost(readable, value_at(values, place), amount_at(amounts, place)))?;
    }
    Ok(costs)
}

/// The table of a slot.
fn slot_table(
    alloc: Global,
    problem: &Problem,
    list: &[Proto],
    slot: usize,
    tests: &[bool],
    amounts: &[i64],
) -> Result<PointTable, AllocError>
    requires list { AreProtocols problem.now list.now }
    requires limits { IsWithinLimits problem.now }
    requires slot { slot < length problem.now.slots }
    requires amounts { (p : ℕ) → IsWithin 562949953421312 (slice_index_or amounts.now p (pos 0)) }
    ensures { IfOk result (λ table. table ≡ table_of_values tests.now
        (by_place (length (protocols problem.now))
        (λ p. option_map (λ c. c +ℤ slice_index_or amounts.now p (pos 0)) (slot_value problem.now p slot)))) }
{
    let values = merged_values(alloc, problem, list, slot, &[])?;
    let costs = slot_costs(alloc, problem, list, slot, values.as_slice(), amounts)?;
    point_table(alloc, tests, costs.as_slice())
}

/// The table of the switch of a guard and a host: on only where the host may read the guard.
fn table_of_switch(
    alloc: Global,
    problem: &Problem,
    guard: &Guard,
    host: HostId,
    amounts: &[i64],
) -> Result<PointTable, AllocError>
    requires labelled { IsLabelled problem.now }
    requires host { host.0 < length problem.now.hosts }
    requires amounts { (v : ℕ) → IsWithin 562949953421312 (slice_index_or amounts.now v (pos 0)) }
    ensures { IfOk result (λ table. table ≡ table_of_values (true ∷ true ∷ [])
        (switch_values problem.now (switch_of guard.now host) amounts.now)) }
{
    let readable = can_read(problem, host, guard.slot);
    let off = own_cost(true, Some(0), amount_at(amounts, 0));
    let on = own_cost(readable, Some(0), amount_at(amounts, 1));
    point_table(alloc, &[true, true], &[off, on])
}

/// The tables of the slots; `sums` has what shifts put on each point, by setting.
fn slot_tables(
    alloc: Global,
    problem: &Problem,
    list: &[Proto],
    settings: &[Items<bool>],
    sums: &[Items<i64>],
) -> Result<Items<PointTable>, AllocError>
    requires list { AreProtocols problem.now list.now }
    requires limits { IsWithinLimits problem.now }
    requires settings { settings.now ≡ by_place (count_of_points problem.now) (tests_of problem.now) }
    requires sums { AreSumsByPoint problem.now sums.now }
    ensures { IfOk result (λ tables. tables ≡ by_place (length problem.now.slots) (table_by problem.now sums.now)) }
{
    let mut tables = Items::new(alloc);
    for slot in 0..problem.slots.as_slice().len() {
        let tests = settings[slot].as_slice();
        let amounts = sums[slot].as_slice();
        tables.push(slot_table(alloc, problem, list, slot, tests, amounts)?)?;
    }
    Ok(tables)
}

/// Puts the tables of the switches behind those of the slots.
fn push_switch_tables(
    alloc: Global,
    problem: &Problem,
    switches: &[SwitchTable],
    sums: &[Items<i64>],
    tables: &mut Items<PointTable>,
) -> Result<(), AllocError>
    requires well_formed { IsWellFormed problem.now }
    requires switches { switches.now ≡ switch_tables_from problem.now 0 problem.now.guards }
    requires sums { AreSumsByPoint problem.now sums.now }
    requires slots { tables.old ≡ by_place (length problem.now.slots) (table_by problem.now sums.now) }
    ensures { OnOk result (tables.new ≡ by_place (count_of_points problem.now) (table_by problem.now sums.now)) }
{
    let slots = problem.slots.as_slice().len();
    let guards = problem.guards.as_slice();
    for number in 0..switches.len() {
        let switch = &switches[number];
        let guard = &guards[switch.guard as usize];
        let amounts = sums[slots + number].as_slice();
        tables.push(table_of_switch(alloc, problem, guard, switch.host, amounts)?)?;
    }
    Ok(())
}

/// The tables of all points, under shifts that name these arcs.
pub(crate) fn point_tables(
    alloc: Global,
    problem: &Problem,
    list: &[Proto],
    switches: &[SwitchTable],
    raws: &[RawArc],
    settings: &[Items<bool>],
    most: usize,
    shifts: &[Shift],
) -> Result<Items<PointTable>, AllocError>
    requires well_formed { IsWellFormed problem.now }
    requires network { IsNetworkOf problem.now list.now switches.now raws.now }
    requires settings { AreSettingsOf problem.now settings.now most }
    requires few { length shifts.now ≤ most_certificate_shifts }
    ensures tables { IfOk result (λ tables. tables ≡ point_tables_of problem.now shifts.now) }
    ensures small { IfOk result AreSmallPoints }
{
    let sums = shift_sums(alloc, raws, Rows::Ends, settings.len(), most, shifts)?;
    let mut tables = slot_tables(alloc, problem, list, settings, sums.as_slice())?;
    push_switch_tables(alloc, problem, switches, sums.as_slice(), &mut tables)?;
    Ok(tables)
}
