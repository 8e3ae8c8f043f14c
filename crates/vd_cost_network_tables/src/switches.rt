//! The switches of a problem.

ghost use Rattle.std.specs.Prelude.{◌≡◌, ◌++◌, ◌∷◌, ◌<◌, [], IfOk, OnOk, filter, if◌then◌else◌, length, slice_index_or};
ghost use Rattle.std.specs.List.{list_any, range_with_len};
ghost use Rattle.vd_space.specs.Points.{may_bring};
ghost use Rattle.vd_cost_network_tables.specs.Tables.{is_kept, switch_tables_at, switch_tables_from};
ghost use Rattle.vd_space_tables.specs.Prices.{candidates_of};
ghost use Rattle.vd_space.specs.WellFormed.{AreProtocols};

use std::alloc::{AllocError, Global};
use vd_base::{HostId, Items, Proto, SlotId, is_holder, protocol_at};
use vd_cost_network_prefix::SwitchTable;
use vd_space::{Guard, Problem};

/// Whether the place passes, and is kept at the host.
fn is_kept(list: &[Proto], tests: &[bool], host: HostId, place: usize) -> bool
    requires place { place < 4294967296 }
    ensures { result ≡ is_kept list.now tests.now host place }
{
    match tests.get(place) {
        Some(test) => *test && is_holder(protocol_at(list, place as u32), host),
        None => false,
    }
}

/// Whether one of the places that pass is kept at the host.
fn is_any_kept(list: &[Proto], tests: &[bool], host: HostId) -> bool
    requires few { length tests.now < 4294967296 }
    ensures { result ≡ list_any (is_kept list.now tests.now host) (range_with_len 0 (length tests.now)) }
{
    for place in 0..tests.len() {
        if is_kept(list, tests, host, place) {
            return true;
        }
    }
    false
}

/// Whether the slot may bring the host in: it has a candidate that is kept there.
fn can_bring(
    problem: &Problem,
    list: &[Proto],
    candidates: &[Items<bool>],
    host: HostId,
    slot: SlotId,
) -> bool
    requires list { AreProtocols problem.now list.now }
    requires candidates { candidates.now ≡ candidates_of problem.now }
    ensures { result ≡ may_bring problem.now host slot }
{
    is_any_kept(list, tests_at(candidates, slot), host)
}

/// The candidates of a slot.
fn tests_at(candidates: &[Items<bool>], slot: SlotId) -> &[bool]
    ensures { result.now ≡ slice_index_or candidates.now slot.0 [] }
{
    match candidates.get(usize::from(slot.0)) {
        Some(row) => row.as_slice(),
        None => &[],
    }
}

/// Puts the slot at the end, where the test passes.
fn push_if(slots: &mut Items<SlotId>, slot: SlotId, test: bool) -> Result<(), AllocError>
    ensures { OnOk result (slots.new ≡ slots.old ++ (if test then slot ∷ [] else [])) }
{
    if test { slots.push(slot) } else { Ok(()) }
}

/// Those of the slots that may bring the host in.
fn members_of(
    alloc: Global,
    problem: &Problem,
    list: &[Proto],
    candidates: &[Items<bool>],
    host: HostId,
    slots: &[SlotId],
) -> Result<Items<SlotId>, AllocError>
    requires list { AreProtocols problem.now list.now }
    requires candidates { candidates.now ≡ candidates_of problem.now }
    ensures { IfOk result (λ members. members ≡ filter (may_bring problem.now host) slots.now) }
{
    let mut members = Items::new(alloc);
    for slot in slots {
        let test = can_bring(problem, list, candidates, host, *slot);
        push_if(&mut members, *slot, test)?;
    }
    Ok(members)
}

/// Puts the switches of the guard with this number at the end, by host.
fn push_switches(
    alloc: Global,
    problem: &Problem,
    list: &[Proto],
    candidates: &[Items<bool>],
    number: u32,
    guard: &Guard,
    switches: &mut Items<SwitchTable>,
) -> Result<(), AllocError>
    requires list { AreProtocols problem.now list.now }
    requires candidates { candidates.now ≡ candidates_of problem.now }
    ensures { OnOk result (switches.new ≡ switches.old ++ switch_tables_at problem.now number guard.now) }
{
    let hosts = problem.hosts.as_slice().len() as u8;
    for at in 0..hosts {
        let host = HostId(at);
        switches.push(SwitchTable {
            guard: number,
            host,
            members: members_of(
                alloc,
                problem,
                list,
                candidates,
                host,
                guard.slots.as_slice(),
            )?,
        })?;
    }
    Ok(())
}

/// The switches, by guard and then by host.
pub fn switch_tables(
    alloc: Global,
    problem: &Problem,
    list: &[Proto],
    candidates: &[Items<bool>],
) -> Result<Items<SwitchTable>, AllocError>
    requires list { AreProtocols problem.now list.now }
    requires candidates { candidates.now ≡ candidates_of problem.now }
    requires few { length problem.now.guards < 4294967296 }
    ensures { IfOk result (λ switches. switches ≡ switch_tables_from problem.now 0 problem.now.guards) }
{
    let guards = problem.guards.as_slice();
    let mut switches = Items::new(alloc);
    for number in 0..guards.len() {
        let guard = &guards[number];
        push_switches(
            alloc,
            problem,
            list,
            candidates,
            number as u32,
            guard,
            &mut switches,
        )?;
    }
    Ok(switches)
}
