//! What it costs to move a value from one protocol of the list to another, and to tell an index to the hosts of its array.

ghost use Rattle.std.specs.Prelude.{◌≡◌, ◌≤◌, IfOk, if◌then◌else◌, Some, unwrap_or, map};
ghost use Rattle.vd_base.specs.Moves.{move_at};
ghost use Rattle.vd_space_tables.specs.Prices.{moves_of, tells_from, tells_of};
ghost use Rattle.vd_space_prefix.specs.Transfers.{ArePrices};
ghost use Rattle.vd_space.specs.Costs.{hosts_at, moves_to, plus};
ghost use Rattle.vd_space.specs.Labelled.{IsLabelled};
ghost use Rattle.vd_space.specs.Validity.{holds_at, move_to_host, protocols};
ghost use Rattle.vd_space.specs.declared.problem.Problem.{Problem as Problems};
ghost use Rattle.vd_space.specs.WellFormed.{AreProtocols};

use std::alloc::{AllocError, Global};
use vd_base::{HostId, Items, Proto, is_holder, protocol_at};
use vd_cost::move_cost;
use vd_protocol::joins;
use vd_space::Problem;

/// What it costs to move a value from each protocol of the list to each, where that can be done.
pub fn move_prices(alloc: Global, list: &[Proto]) -> Result<Items<Items<Option<u32>>>, AllocError>
    ensures prices { IfOk result (λ prices. prices ≡ moves_of list.now) }
    ensures small { (problem : Problems) → IsLabelled problem → list.now ≡ protocols problem → IfOk result ArePrices }
{
    let mut prices = Items::new(alloc);
    for from in list {
        prices.push(prices_from(alloc, list, *from)?)?;
    }
    Ok(prices)
}

/// What it costs to move a value from a protocol to each of the list.
fn prices_from(alloc: Global, list: &[Proto], from: Proto) -> Result<Items<Option<u32>>, AllocError>
    ensures { IfOk result (λ prices. prices ≡ map (move_at from) list.now) }
{
    let mut prices = Items::new(alloc);
    for to in list {
        prices.push(price(from, *to))?;
    }
    Ok(prices)
}

/// What it costs to move a value, where that can be done.
fn price(from: Proto, to: Proto) -> Option<u32>
    ensures { result ≡ move_at from to }
{
    if joins(from, to) {
        Some(move_cost(from, to))
    } else {
        None
    }
}

/// What it costs to tell an index to each host of its array, where that can be done: by the place of the array and that of
/// the index.
pub fn index_prices(
    alloc: Global,
    problem: &Problem,
    list: &[Proto],
) -> Result<Items<Items<Option<u32>>>, AllocError>
    requires { AreProtocols problem.now list.now }
    ensures prices { IfOk result (λ prices. prices ≡ tells_of problem.now) }
    ensures small { IfOk result ArePrices }
{
    let mut prices = Items::new(alloc);
    for array in 0..list.len() {
        prices.push(prices_of_array(alloc, problem, list, array as u32)?)?;
    }
    Ok(prices)
}

/// What it costs to tell an index to each host of an array that stands at a place, by the place of the index.
fn prices_of_array(
    alloc: Global,
    problem: &Problem,
    list: &[Proto],
    array: u32,
) -> Result<Items<Option<u32>>, AllocError>
    requires { AreProtocols problem.now list.now }
    ensures { IfOk result (λ prices. prices ≡ tells_from problem.now array) }
{
    let mut prices = Items::new(alloc);
    for index in 0..list.len() {
        prices.push(index_price(problem, list, array, index as u32))?;
    }
    Ok(prices)
}

/// What it costs to tell an index that stands at a place to each host of an array that stands at another.
fn index_price(problem: &Problem, list: &[Proto], array: u32, index: u32) -> Option<u32>
    requires { AreProtocols problem.now list.now }
    ensures { result ≡ moves_to problem.now index (hosts_at problem.now array) }
{
    let hosts = problem.hosts.as_slice().len() as u8;
    let mut sum = Some(0);
    for host in 0..hosts {
        sum = both(
            sum,
            price_if_holder(problem, list, array, index, HostId(host)),
        );
    }
    sum
}

/// What it costs to tell an index to a host, and nothing where the array is not kept at the host.
fn price_if_holder(
    problem: &Problem,
    list: &[Proto],
    array: u32,
    index: u32,
    host: HostId,
) -> Option<u32>
    requires list { list.now ≡ protocols problem.now }
    ensures { result ≡ (if holds_at problem.now host array then move_to_host problem.now host index else Some 0) }
{
    if is_holder(protocol_at(list, array), host) {
        price(protocol_at(list, index), Proto::Local(host))
    } else {
        Some(0)
    }
}

/// Both prices together, if there are both.
fn both(first: Option<u32>, second: Option<u32>) -> Option<u32>
    requires first { unwrap_or first 0 ≤ 848 }
    requires second { unwrap_or second 0 ≤ 848 }
    ensures { result ≡ plus first second }
{
    match (first, second) {
        (Some(price), Some(other)) => Some(price + other),
        _ => None,
    }
}
