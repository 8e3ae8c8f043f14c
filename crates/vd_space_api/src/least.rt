//! The least that each term can cost under a prefix, over what its slots may stand at.

ghost use Rattle.std.specs.Prelude.{◌≡◌, ◌+◌, ◌<◌, ◌≤◌, length, slice_get, unwrap_or};
ghost use Rattle.vd_base.specs.Limits.{most_weights};
ghost use Rattle.vd_space.specs.Bounds.{may_stand};
ghost use Rattle.vd_space.specs.Costs.{hosts_at, moves_to};
ghost use Rattle.vd_space.specs.Validity.{is_candidate, protocols};
ghost use Rattle.vd_space.specs.WellFormed.{AreProtocols};
ghost use Rattle.vd_space_api.specs.Low.{with_price, index_number, least_index, least_operation, least_place, least_told, least_use, number_left, operation_number, told_number, use_number};
ghost use Rattle.vd_space_api.specs.Rows.{if_passes};

use crate::space_shifts::{lesser_number, price, weighed_cost};
use vd_base::{HostId, Proto, is_holder};
use vd_cost::move_cost;
use vd_protocol::joins;
use vd_space::{Index, Problem, Use, is_candidate_at};

/// What a term with nothing left counts.
const NOTHING_LEFT: u64 = 1_000_000_000;

/// The number, or what a term with nothing left counts.
fn number_left(least: Option<u64>) -> u64
    ensures { result ≡ number_left least }
{
    least.unwrap_or(NOTHING_LEFT)
}

/// The number, if the test passes.
fn if_passes(test: bool, number: Option<u64>) -> Option<u64>
    ensures { result ≡ if_passes test number }
{
    if test { number } else { None }
}

/// Where the slot stands, if it is decided.
fn decided(prefix: &[u32], slot: usize) -> Option<u32>
    ensures { result ≡ slice_get prefix.now slot }
{
    prefix.get(slot).copied()
}

/// Whether the place is a candidate of the slot.
fn is_candidate(problem: &Problem, list: &[Proto], slot: usize, place: usize) -> bool
    requires list { AreProtocols problem.now list.now }
    requires place { place < length list.now }
    ensures { result ≡ is_candidate problem.now slot place }
{
    let makings = problem.slots.as_slice();
    if slot >= makings.len() {
        return false;
    }
    is_candidate_at(problem, list, &makings[slot], place as u32)
}

/// Whether the slot may stand at the place: its own where it is decided, and each candidate where it is not.
fn may_stand(problem: &Problem, list: &[Proto], prefix: &[u32], slot: usize, place: usize) -> bool
    requires list { AreProtocols problem.now list.now }
    requires place { place < length list.now }
    ensures { result ≡ may_stand problem.now prefix.now slot place }
{
    match decided(prefix, slot) {
        Some(at) => at as usize == place,
        None => is_candidate(problem, list, slot, place),
    }
}

/// What the slot's operation costs at a place, if it can stand there.
fn operation_at(problem: &Problem, list: &[Proto], slot: usize, place: usize) -> Option<u64>
    requires list { list.now ≡ protocols problem.now }
    requires place { place < length list.now }
    ensures { result ≡ operation_number problem.now slot place }
{
    let makings = problem.slots.as_slice();
    if slot >= makings.len() {
        return None;
    }
    weighed_cost(&makings[slot], list[place])
}

/// The least that the slot's operation can cost.
pub(crate) fn least_operation(problem: &Problem, list: &[Proto], prefix: &[u32], slot: usize) -> u64
    requires { AreProtocols problem.now list.now }
    ensures { result ≡ least_operation problem.now prefix.now slot }
{
    let mut least = None;
    for place in 0..list.len() {
        let stands = may_stand(problem, list, prefix, slot, place);
        let cost = operation_at(problem, list, slot, place);
        least = lesser_number(least, if_passes(stands, cost));
    }
    number_left(least)
}

/// What it costs to tell a host a value that stands at a place, if it is reached.
fn told_at(
    problem: &Problem,
    list: &[Proto],
    weight: u32,
    host: HostId,
    place: usize,
) -> Option<u64>
    requires list { list.now ≡ protocols problem.now }
    requires place { place < length list.now }
    ensures { result ≡ told_number problem.now weight host place }
{
    price(weight, list[place], Proto::Local(host))
}

/// The least that it can cost to tell a host the slot's value.
pub(crate) fn least_told(
    problem: &Problem,
    list: &[Proto],
    prefix: &[u32],
    slot: usize,
    weight: u32,
    host: HostId,
) -> u64
    requires { AreProtocols problem.now list.now }
    ensures { result ≡ least_told problem.now prefix.now slot weight host }
{
    let mut least = None;
    for place in 0..list.len() {
        let stands = may_stand(problem, list, prefix, slot, place);
        let cost = told_at(problem, list, weight, host, place);
        least = lesser_number(least, if_passes(stands, cost));
    }
    number_left(least)
}

/// What a use costs between two places, if they join.
fn use_at(problem: &Problem, list: &[Proto], u: &Use, from: usize, to: usize) -> Option<u64>
    requires list { list.now ≡ protocols problem.now }
    requires from { from < length list.now }
    requires to { to < length list.now }
    ensures { result ≡ use_number problem.now u.now from to }
{
    price(u.weight, list[from], list[to])
}

/// The least that a use can cost from a place.
fn least_use_from(
    problem: &Problem,
    list: &[Proto],
    prefix: &[u32],
    u: &Use,
    from: usize,
) -> Option<u64>
    requires list { AreProtocols problem.now list.now }
    requires from { from < length list.now }
    ensures { result ≡ least_place problem.now prefix.now u.now.target.0 (use_number problem.now u.now from) }
{
    let mut least = None;
    for place in 0..list.len() {
        let stands = may_stand(problem, list, prefix, usize::from(u.target.0), place);
        let cost = use_at(problem, list, u, from, place);
        least = lesser_number(least, if_passes(stands, cost));
    }
    least
}

/// The least that a use can cost.
pub(crate) fn least_use(problem: &Problem, list: &[Proto], prefix: &[u32], u: &Use) -> u64
    requires { AreProtocols problem.now list.now }
    ensures { result ≡ least_use problem.now prefix.now u.now }
{
    let mut least = None;
    for place in 0..list.len() {
        let stands = may_stand(problem, list, prefix, usize::from(u.source.0), place);
        let cost = least_use_from(problem, list, prefix, u, place);
        least = lesser_number(least, if_passes(stands, cost));
    }
    number_left(least)
}

/// A price, with what it costs to tell a host of an array an index besides, if the host is reached.
fn with_price(
    list: &[Proto],
    array: usize,
    index: usize,
    host: HostId,
    sum: Option<u64>,
) -> Option<u64>
    requires array { array < length list.now }
    requires index { index < length list.now }
    requires sum { unwrap_or sum 0 ≤ 1099511627776 }
    ensures value { result ≡ with_price list.now array index host sum }
    ensures small { unwrap_or result 0 ≤ unwrap_or sum 0 + 4294967295 }
{
    if !is_holder(list[array], host) {
        return sum;
    }
    let Some(so_far) = sum else {
        return None;
    };
    if !joins(list[index], Proto::Local(host)) {
        return None;
    }
    Some(u64::from(move_cost(list[index], Proto::Local(host))) + so_far)
}

/// What it costs to tell an index, which stands at a place, to each host of its array, which stands at another.
fn index_price(problem: &Problem, list: &[Proto], array: usize, index: usize) -> Option<u64>
    requires list { AreProtocols problem.now list.now }
    requires array { array < length list.now }
    requires index { index < length list.now }
    ensures value { result ≡ moves_to problem.now index (hosts_at problem.now array) }
    ensures small { unwrap_or result 0 ≤ 17179869180 }
{
    let hosts = problem.hosts.as_slice().len() as u8;
    let mut sum = Some(0);
    for host in (0..hosts).rev() {
        sum = with_price(list, array, index, HostId(host), sum);
    }
    sum
}

/// So often the price of an index between two places, if each host of the array is reached.
fn index_at(problem: &Problem, list: &[Proto], index: &Index, from: usize, to: usize) -> Option<u64>
    requires list { AreProtocols problem.now list.now }
    requires weight { index.now.weight ≤ most_weights }
    requires from { from < length list.now }
    requires to { to < length list.now }
    ensures { result ≡ index_number problem.now index.now from to }
{
    match index_price(problem, list, from, to) {
        Some(price) => Some(u64::from(index.weight) * price),
        None => None,
    }
}

/// The least that an index can cost from a place of its array.
fn least_index_from(
    problem: &Problem,
    list: &[Proto],
    prefix: &[u32],
    index: &Index,
    from: usize,
) -> Option<u64>
    requires list { AreProtocols problem.now list.now }
    requires weight { index.now.weight ≤ most_weights }
    requires from { from < length list.now }
    ensures { result ≡ least_place problem.now prefix.now index.now.index.0 (index_number problem.now index.now from) }
{
    let mut least = None;
    for place in 0..list.len() {
        let stands = may_stand(problem, list, prefix, usize::from(index.index.0), place);
        let cost = index_at(problem, list, index, from, place);
        least = lesser_number(least, if_passes(stands, cost));
    }
    least
}

/// The least that an index can cost.
pub(crate) fn least_index(problem: &Problem, list: &[Proto], prefix: &[u32], index: &Index) -> u64
    requires list { AreProtocols problem.now list.now }
    requires weight { index.now.weight ≤ most_weights }
    ensures { result ≡ least_index problem.now prefix.now index.now }
{
    let mut least = None;
    for place in 0..list.len() {
        let stands = may_stand(problem, list, prefix, usize::from(index.array.0), place);
        let cost = least_index_from(problem, list, prefix, index, place);
        least = lesser_number(least, if_passes(stands, cost));
    }
    number_left(least)
}
