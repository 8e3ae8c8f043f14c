//! The bound of a prefix: the sum of the least of each term.

ghost use Rattle.std.specs.Prelude.{◌≡◌, ◌*◌, ◌≤◌, length, pos};
ghost use Rattle.vd_base.specs.Limits.{most_weights};
ghost use Rattle.vd_space.specs.Bounds.{low};
ghost use Rattle.vd_space.specs.Costs.{slots_of};
ghost use Rattle.vd_space.specs.Sizes.{IsWithinLimits, heft};
ghost use Rattle.vd_space.specs.WellFormed.{AreProtocols};
ghost use Rattle.vd_space_api.specs.Low.{guard_number, least_guard, least_index, least_operation, least_output, least_use};

use crate::least::{least_index, least_operation, least_told, least_use};
use vd_base::{HostId, Proto};
use vd_space::{Guard, Problem, is_part};

/// The sum of the least that the operations can cost.
fn operations_sum(problem: &Problem, list: &[Proto], prefix: &[u32]) -> u64
    requires list { AreProtocols problem.now list.now }
    requires limits { IsWithinLimits problem.now }
    ensures sum { result ≡ heft (least_operation problem.now prefix.now) (slots_of problem.now) }
    ensures small { result ≤ 1000000000 * length problem.now.slots }
{
    let mut sum = 0;
    for slot in 0..problem.slots.as_slice().len() {
        sum += least_operation(problem, list, prefix, slot);
    }
    sum
}

/// The sum of the least that the outputs can cost.
fn outputs_sum(problem: &Problem, list: &[Proto], prefix: &[u32]) -> u64
    requires list { AreProtocols problem.now list.now }
    requires limits { IsWithinLimits problem.now }
    ensures sum { result ≡ heft (least_output problem.now prefix.now) problem.now.outputs }
    ensures small { result ≤ 1000000000 * length problem.now.outputs }
{
    let outputs = problem.outputs.as_slice();
    let mut sum = 0;
    for at in 0..outputs.len() {
        let output = &outputs[at];
        sum += least_told(
            problem,
            list,
            prefix,
            usize::from(output.slot.0),
            output.weight,
            output.host,
        );
    }
    sum
}

/// The sum of the least that the uses can cost.
fn uses_sum(problem: &Problem, list: &[Proto], prefix: &[u32]) -> u64
    requires list { AreProtocols problem.now list.now }
    requires limits { IsWithinLimits problem.now }
    ensures sum { result ≡ heft (least_use problem.now prefix.now) problem.now.uses }
    ensures small { result ≤ 1000000000 * length problem.now.uses }
{
    let uses = problem.uses.as_slice();
    let mut sum = 0;
    for at in 0..uses.len() {
        sum += least_use(problem, list, prefix, &uses[at]);
    }
    sum
}

/// The sum of the least that the indexes can cost.
fn indexes_sum(problem: &Problem, list: &[Proto], prefix: &[u32]) -> u64
    requires list { AreProtocols problem.now list.now }
    requires limits { IsWithinLimits problem.now }
    ensures sum { result ≡ heft (least_index problem.now prefix.now) problem.now.indexes }
    ensures small { result ≤ 1000000000 * length problem.now.indexes }
{
    let indexes = problem.indexes.as_slice();
    let mut sum = 0;
    for at in 0..indexes.len() {
        sum += least_index(problem, list, prefix, &indexes[at]);
    }
    sum
}

/// The least that it can cost to tell a host the guard, where the host is known to take part.
fn guard_told(problem: &Problem, list: &[Proto], prefix: &[u32], guard: &Guard, host: HostId) -> u64
    requires list { AreProtocols problem.now list.now }
    requires weight { guard.now.weight ≤ most_weights }
    ensures told { result ≡ guard_number problem.now prefix.now guard.now host }
    ensures small { result ≤ 1000000000 }
{
    if is_part(problem, list, prefix, guard, host) {
        least_told(
            problem,
            list,
            prefix,
            usize::from(guard.slot.0),
            guard.weight,
            host,
        )
    } else {
        0
    }
}

/// The sum of that over the hosts.
fn guard_sum(problem: &Problem, list: &[Proto], prefix: &[u32], guard: &Guard) -> u64
    requires list { AreProtocols problem.now list.now }
    requires weight { guard.now.weight ≤ most_weights }
    ensures sum { result ≡ least_guard problem.now prefix.now guard.now }
    ensures small { result ≤ 4000000000 }
{
    let hosts = problem.hosts.as_slice().len() as u8;
    let mut sum = 0;
    for host in 0..hosts {
        sum += guard_told(problem, list, prefix, guard, HostId(host));
    }
    sum
}

/// The sum of the least that the guards can cost.
fn guards_sum(problem: &Problem, list: &[Proto], prefix: &[u32]) -> u64
    requires list { AreProtocols problem.now list.now }
    requires limits { IsWithinLimits problem.now }
    ensures sum { result ≡ heft (least_guard problem.now prefix.now) problem.now.guards }
    ensures small { result ≤ 4000000000 * length problem.now.guards }
{
    let guards = problem.guards.as_slice();
    let mut sum = 0;
    for at in 0..guards.len() {
        sum += guard_sum(problem, list, prefix, &guards[at]);
    }
    sum
}

/// The bound of a prefix.
pub(crate) fn lower_bound(problem: &Problem, list: &[Proto], prefix: &[u32]) -> u64
    requires list { AreProtocols problem.now list.now }
    requires limits { IsWithinLimits problem.now }
    ensures { pos result ≡ low problem.now prefix.now }
{
    let operations = operations_sum(problem, list, prefix);
    let outputs = outputs_sum(problem, list, prefix);
    let uses = uses_sum(problem, list, prefix);
    let indexes = indexes_sum(problem, list, prefix);
    operations + outputs + uses + indexes + guards_sum(problem, list, prefix)
}
