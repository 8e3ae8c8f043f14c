//! What the terms of one slot cost, by the place where the slot stands.

ghost use Rattle.std.specs.Prelude.{◌≡◌, ℕ, ◌+◌, ◌≤◌, ◌<◌, if◌then◌else◌, IfOk, length};
ghost use Rattle.vd_base.specs.Costs.{cost_at};
ghost use Rattle.vd_base.specs.Limits.{most_weights};
ghost use Rattle.vd_base.specs.Moves.{move_at};
ghost use Rattle.vd_base.specs.declared.protocols.Proto.TheVariants.{Local as local};
ghost use Rattle.vd_space_prefix.specs.Transfers.{IsWithin, by_place};
ghost use Rattle.vd_space.specs.Bounds.{add};
ghost use Rattle.vd_space.specs.Costs.{operation_value, output_value, weigh};
ghost use Rattle.vd_space.specs.Growth.{output_names};
ghost use Rattle.vd_space.specs.Sizes.{IsWithinLimits};
ghost use Rattle.vd_space.specs.Validity.{move_to_host, protocols};
ghost use Rattle.vd_space.specs.WellFormed.{AreProtocols};
ghost use Rattle.vd_space_tables.specs.Values.{AreSmall, HasRoom, merged_value, together, with_shift};

use std::alloc::{AllocError, Global};
use vd_base::{HostId, Items, Proto, Row, protocol_at};
use vd_cost::{move_cost, op_cost};
use vd_protocol::{holds, joins};
use vd_space::{Output, Problem};
use vd_space_prefix::amount_at;

/// The values of a term, by place: none where the slot cannot stand there or the value is not moved from there.
pub(crate) type Values = Items<Option<i64>>;

/// What the slot's operation costs, by place.
pub(crate) fn operation_values(
    alloc: Global,
    problem: &Problem,
    list: &[Proto],
    slot: usize,
) -> Result<Values, AllocError>
    requires list { AreProtocols problem.now list.now }
    requires limits { IsWithinLimits problem.now }
    ensures { IfOk result (λ values. values ≡ by_place (length list.now) (operation_value problem.now slot)) }
{
    let mut values = Items::new(alloc);
    for place in 0..list.len() {
        values.push(operation_at(problem, list, slot, place))?;
    }
    Ok(values)
}

/// What it costs to tell a value so often to a host, by place.
pub(crate) fn told_values(
    alloc: Global,
    problem: &Problem,
    list: &[Proto],
    weight: u32,
    host: HostId,
) -> Result<Values, AllocError>
    requires list { AreProtocols problem.now list.now }
    requires weight { weight ≤ most_weights }
    ensures { IfOk result (λ values. values ≡ by_place (length list.now) (λ p. weigh weight (move_to_host problem.now host p))) }
{
    let mut values = Items::new(alloc);
    for place in 0..list.len() {
        values.push(told_at(problem, list, weight, host, place))?;
    }
    Ok(values)
}

/// What the slot's operation and outputs cost together, with what shifts put on them, by place.
pub fn merged_values(
    alloc: Global,
    problem: &Problem,
    list: &[Proto],
    slot: usize,
    shifted: &[i64],
) -> Result<Values, AllocError>
    requires list { AreProtocols problem.now list.now }
    requires limits { IsWithinLimits problem.now }
    requires shifted { AreSmall 562949953421312 shifted.now }
    ensures { IfOk result (λ values. values ≡ by_place (length list.now) (merged_value problem.now slot shifted.now)) }
{
    let mut values = Items::new(alloc);
    for place in 0..list.len() {
        values.push(merged_at(problem, list, slot, place, amount_at(shifted, place)))?;
    }
    Ok(values)
}

/// What the slot's operation costs at a place.
fn operation_at(problem: &Problem, list: &[Proto], slot: usize, place: usize) -> Option<i64>
    requires list { list.now ≡ protocols problem.now }
    requires limits { IsWithinLimits problem.now }
    requires place { place < 64 }
    ensures value { result ≡ operation_value problem.now slot place }
    ensures room { HasRoom 1 result }
{
    match problem.slots.as_slice().get(slot) {
        Some(making) => {
            weighed(
                making.weight,
                row_price(making.row, protocol_at(list, place as u32)),
            )
        }
        None => None,
    }
}

/// What it costs to tell a value so often to a host from a place.
fn told_at(
    problem: &Problem,
    list: &[Proto],
    weight: u32,
    host: HostId,
    place: usize,
) -> Option<i64>
    requires list { list.now ≡ protocols problem.now }
    requires weight { weight ≤ most_weights }
    requires place { place < 64 }
    ensures value { result ≡ weigh weight (move_to_host problem.now host place) }
    ensures room { HasRoom 1 result }
{
    weighed(weight, told_price(protocol_at(list, place as u32), host))
}

/// What the slot's operation and outputs cost together at a place, with what shifts put on them there.
fn merged_at(
    problem: &Problem,
    list: &[Proto],
    slot: usize,
    place: usize,
    shifted: i64,
) -> Option<i64>
    requires list { list.now ≡ protocols problem.now }
    requires limits { IsWithinLimits problem.now }
    requires place { place < 64 }
    requires shifted { IsWithin 562949953421312 shifted }
    ensures { result ≡ with_shift shifted (together problem.now slot place) }
{
    let mut sum = operation_at(problem, list, slot, place);
    for output in problem.outputs.as_slice() {
        sum = with_output(sum, problem, list, slot, place, output);
    }
    match sum {
        Some(sum) => Some(sum + shifted),
        None => None,
    }
}

/// The sum with what the output costs, if it is one of the slot.
fn with_output(
    sum: Option<i64>,
    problem: &Problem,
    list: &[Proto],
    slot: usize,
    place: usize,
    output: &Output,
) -> Option<i64>
    requires list { list.now ≡ protocols problem.now }
    requires weight { output.now.weight ≤ most_weights }
    requires place { place < 64 }
    requires room { HasRoom 4096 sum }
    ensures value { result ≡ (if output_names slot output.now then add sum (output_value problem.now output.now place) else sum) }
    ensures room { (n : ℕ) → HasRoom n sum → HasRoom (n + 1) result }
{
    if usize::from(output.slot.0) != slot {
        return sum;
    }
    both(
        sum,
        told_at(problem, list, output.weight, output.host, place),
    )
}

/// Both values together, if there are both.
fn both(first: Option<i64>, second: Option<i64>) -> Option<i64>
    requires first { HasRoom 4096 first }
    requires second { HasRoom 1 second }
    ensures value { result ≡ add first second }
    ensures room { (n : ℕ) → HasRoom n first → HasRoom (n + 1) result }
{
    match (first, second) {
        (Some(value), Some(other)) => Some(value + other),
        _ => None,
    }
}

/// So often the price.
fn weighed(weight: u32, price: Option<u32>) -> Option<i64>
    requires { weight ≤ most_weights }
    ensures value { result ≡ weigh weight price }
    ensures room { HasRoom 1 result }
{
    match price {
        Some(price) => Some(i64::from(weight) * i64::from(price)),
        None => None,
    }
}

/// What an operation costs at a protocol, where it can stand there.
fn row_price(row: Row, at: Proto) -> Option<u32>
    ensures { result ≡ cost_at row at }
{
    if !holds(row, at) {
        return None;
    }
    match row {
        Row::Apply(op) => Some(op_cost(op, at)),
        Row::Constant | Row::Carry | Row::Input(_) | Row::Variable => Some(0),
    }
}

/// What it costs to tell a value to a host, where that can be done.
fn told_price(from: Proto, host: HostId) -> Option<u32>
    ensures { result ≡ move_at from (local host) }
{
    if joins(from, Proto::Local(host)) {
        Some(move_cost(from, Proto::Local(host)))
    } else {
        None
    }
}
