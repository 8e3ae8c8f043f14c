//! What it costs to tell guards to the hosts that take part, under a prefix.

ghost use Rattle.std.specs.Prelude.{◌≡◌, ◌==◌, ◌||◌, ◌-ℤ◌, length, slice_get, slice_index_or, pos, [], true};
ghost use Rattle.std.specs.Option.{option_map_or};
ghost use Rattle.vd_base.specs.HostSets.{host as host_at};
ghost use Rattle.vd_space_prefix.specs.Guards.{AreTellings, IsTelling, guard_change, guard_changes, guard_under, change_of_guard, is_joining, joined_if, joined_under, told_if, told_under};
ghost use Rattle.vd_space_prefix.specs.Naming.{AreNamingNext};
ghost use Rattle.vd_space_prefix.specs.Transfers.{IsWithin};
ghost use Rattle.vd_space.specs.Growth.{guard_names, with_choice};
ghost use Rattle.vd_space.specs.Validity.{protocols};
ghost use Rattle.vd_space.specs.WellFormed.{AreProtocols};

use crate::steps::decided;
use crate::transfers::amount_at;
use vd_base::{HostId, Items, Proto, is_holder, protocol_at};
use vd_space::{Guard, Problem, is_part};

/// What it costs to tell a guard: to each host, at least, where its slot is not decided; and to each host from each place.
#[derive(Drop)]
pub struct Telling {
    pub slot: u32,
    pub free: Items<i64>,
    pub costs: Items<Items<i64>>,
}

/// What it costs to tell the guard to a host from a place.
fn cost_at_host(costs: &[Items<i64>], host: u8, place: u32) -> i64
    ensures { result ≡ slice_index_or (slice_index_or costs.now host []) place (pos 0) }
{
    match costs.get(host as usize) {
        Some(row) => amount_at(row.as_slice(), place as usize),
        None => 0,
    }
}

/// The least that it costs to tell the guard to a host under the prefix.
fn cost_told(telling: &Telling, host: u8, prefix: &[u32]) -> i64
    requires { IsTelling telling.now }
    ensures cost { result ≡ told_under telling.now prefix.now host }
    ensures within { IsWithin 1073741824 result }
{
    match decided(prefix, telling.slot) {
        Some(place) => cost_at_host(telling.costs.as_slice(), host, place),
        None => amount_at(telling.free.as_slice(), host as usize),
    }
}

/// The same, where the host takes part.
fn cost_if_told(
    problem: &Problem,
    list: &[Proto],
    guard: &Guard,
    telling: &Telling,
    host: u8,
    prefix: &[u32],
) -> i64
    requires list { list.now ≡ protocols problem.now }
    requires telling { IsTelling telling.now }
    ensures cost { result ≡ told_if problem.now prefix.now guard.now telling.now host }
    ensures within { IsWithin 1073741824 result }
{
    if is_part(problem, list, prefix, guard, HostId(host)) {
        cost_told(telling, host, prefix)
    } else {
        0
    }
}

/// The least that it costs to tell the guard to all hosts that are known to take part.
pub fn guard_cost(
    problem: &Problem,
    list: &[Proto],
    guard: &Guard,
    telling: &Telling,
    prefix: &[u32],
) -> i64
    requires list { AreProtocols problem.now list.now }
    requires telling { IsTelling telling.now }
    ensures cost { result ≡ guard_under problem.now prefix.now guard.now telling.now }
    ensures within { IsWithin 4294967296 result }
{
    let mut sum = 0;
    let hosts = problem.hosts.as_slice().len() as u8;
    for host in 0..hosts {
        sum += cost_if_told(problem, list, guard, telling, host, prefix);
    }
    sum
}

/// Whether the choice brings the host into the branches of the guard.
fn is_brought(
    problem: &Problem,
    list: &[Proto],
    guard: &Guard,
    host: u8,
    choice: u32,
    prefix: &[u32],
) -> bool
    requires list { list.now ≡ protocols problem.now }
    ensures { result ≡ is_joining problem.now prefix.now guard.now choice (host_at host) }
{
    is_holder(protocol_at(list, choice), HostId(host))
        && !is_part(problem, list, prefix, guard, HostId(host))
}

/// The least that it costs to tell the guard to a host under the prefix, where the choice brings it in.
fn cost_if_brought(
    problem: &Problem,
    list: &[Proto],
    guard: &Guard,
    telling: &Telling,
    host: u8,
    choice: u32,
    prefix: &[u32],
) -> i64
    requires list { list.now ≡ protocols problem.now }
    requires telling { IsTelling telling.now }
    ensures cost { result ≡ joined_if problem.now prefix.now guard.now telling.now choice host }
    ensures within { IsWithin 1073741824 result }
{
    if is_brought(problem, list, guard, host, choice, prefix) {
        cost_told(telling, host, prefix)
    } else {
        0
    }
}

/// The least that it costs to tell the guard to all hosts that the choice brings in.
fn joining_cost(
    problem: &Problem,
    list: &[Proto],
    guard: &Guard,
    telling: &Telling,
    choice: u32,
    prefix: &[u32],
) -> i64
    requires list { AreProtocols problem.now list.now }
    requires telling { IsTelling telling.now }
    ensures cost { result ≡ joined_under problem.now prefix.now guard.now telling.now choice }
    ensures within { IsWithin 4294967296 result }
{
    let mut sum = 0;
    let hosts = problem.hosts.as_slice().len() as u8;
    for host in 0..hosts {
        sum += cost_if_brought(problem, list, guard, telling, host, choice, prefix);
    }
    sum
}

/// Whether the slot is the guard's own.
fn is_own(guard: &Guard, telling: &Telling, slot: usize) -> bool
    ensures { result ≡ (guard.now.slot.0 == slot || telling.now.slot == slot) }
{
    usize::from(guard.slot.0) == slot || telling.slot as usize == slot
}

/// What the guard costs more with the choice that makes one prefix of the other: where the slot is not the guard's own, what it
/// costs to tell it to the hosts that the choice brings in.
fn growth_of_guard(
    problem: &Problem,
    list: &[Proto],
    guard: &Guard,
    telling: &Telling,
    choice: u32,
    before: &[u32],
    after: &[u32],
) -> i64
    requires list { AreProtocols problem.now list.now }
    requires telling { IsTelling telling.now }
    requires grown { after.now ≡ with_choice before.now choice }
    requires named { guard_names (length before.now) guard.now ≡ true }
    ensures growth { result ≡ guard_under problem.now after.now guard.now telling.now -ℤ guard_under problem.now before.now
        guard.now telling.now }
    ensures within { IsWithin 8589934592 result }
{
    if is_own(guard, telling, before.len()) {
        guard_cost(problem, list, guard, telling, after)
            - guard_cost(problem, list, guard, telling, before)
    } else {
        joining_cost(problem, list, guard, telling, choice, before)
    }
}

/// What the guard costs more with the choice, by what it costs to tell it.
fn change_of(
    problem: &Problem,
    list: &[Proto],
    guard: &Guard,
    tellings: &[Telling],
    number: u32,
    choice: u32,
    before: &[u32],
    after: &[u32],
) -> i64
    requires list { AreProtocols problem.now list.now }
    requires tellings { AreTellings tellings.now }
    requires grown { after.now ≡ with_choice before.now choice }
    requires named { guard_names (length before.now) guard.now ≡ true }
    ensures change { result ≡ change_of_guard problem.now before.now after.now guard.now (slice_get tellings.now number) }
    ensures within { IsWithin 8589934592 result }
{
    match tellings.get(number as usize) {
        Some(telling) => { growth_of_guard(problem, list, guard, telling, choice, before, after) }
        None => 0,
    }
}

/// What the guard with that number costs more with the choice.
fn change_at(
    problem: &Problem,
    list: &[Proto],
    tellings: &[Telling],
    number: u32,
    choice: u32,
    before: &[u32],
    after: &[u32],
) -> i64
    requires list { AreProtocols problem.now list.now }
    requires tellings { AreTellings tellings.now }
    requires grown { after.now ≡ with_choice before.now choice }
    requires named { option_map_or (guard_names (length before.now)) (slice_get problem.now.guards number) true ≡ true }
    ensures change { result ≡ guard_change problem.now tellings.now before.now after.now number }
    ensures within { IsWithin 8589934592 result }
{
    match problem.guards.as_slice().get(number as usize) {
        Some(guard) => change_of(
            problem, list, guard, tellings, number, choice, before, after,
        ),
        None => 0,
    }
}

/// What the guards with these numbers cost more with the choice that makes one prefix of the other. All of them name its slot.
pub(crate) fn growth_of_guards(
    problem: &Problem,
    list: &[Proto],
    tellings: &[Telling],
    numbers: &[u32],
    choice: u32,
    before: &[u32],
    after: &[u32],
) -> i64
    requires list { AreProtocols problem.now list.now }
    requires tellings { AreTellings tellings.now }
    requires numbers { AreNamingNext problem.now before.now numbers.now }
    requires grown { after.now ≡ with_choice before.now choice }
    ensures growth { result ≡ guard_changes problem.now tellings.now numbers.now before.now after.now }
    ensures within { IsWithin 17592186044416 result }
{
    let mut sum = 0;
    for number in numbers {
        sum += change_at(problem, list, tellings, *number, choice, before, after);
    }
    sum
}
