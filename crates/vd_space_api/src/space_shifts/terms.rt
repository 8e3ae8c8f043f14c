//! What each slot costs before any shift, by slot and place, with the outputs of its value.

ghost use Rattle.std.specs.Prelude.{◌≡◌, ℕ, ◌<◌, ◌≤◌, None, length, map, slice_index_or, unwrap_or, IfOk, OnOk};
ghost use Rattle.vd_base.specs.Costs.{cost_at};
ghost use Rattle.vd_base.specs.Moves.{move_at};
ghost use Rattle.vd_base.specs.declared.protocols.Proto.TheVariants.{Local as local};
ghost use Rattle.vd_base.specs.Holders.{proto_in};
ghost use Rattle.vd_protocol.specs.Authority.{IsOver, names_of};
ghost use Rattle.vd_space.specs.Costs.{plus};
ghost use Rattle.vd_space.specs.WellFormed.{AreProtocols, IsWellFormed};
ghost use Rattle.vd_space_api.specs.Rows.{weighed};
ghost use Rattle.vd_space_api.specs.Terms.{AreCosts, candidates_of, operation_at, operations_of, row_at, terms_with, with_output};

use crate::space_shifts::rows::{price, product};
use std::alloc::{AllocError, Global};
use vd_base::{Items, Proto, Row};
use vd_cost::op_cost;
use vd_protocol::holds;
use vd_space::{Making, Output, Problem, is_candidate_at};

/// At which places of the list the slot can stand.
fn candidates_of(
    alloc: Global,
    problem: &Problem,
    list: &[Proto],
    making: &Making,
) -> Result<Items<bool>, AllocError>
    requires list { AreProtocols problem.now list.now }
    requires making { IsOver (names_of problem.now.hosts) making.now.label }
    ensures { IfOk result (λ candidates. candidates ≡ candidates_of problem.now making.now) }
{
    let mut candidates = Items::new(alloc);
    for place in 0..list.len() {
        candidates.push(is_candidate_at(problem, list, making, place as u32))?;
    }
    Ok(candidates)
}

/// At which places of the list each slot can stand.
pub(crate) fn all_candidates(
    alloc: Global,
    problem: &Problem,
    list: &[Proto],
) -> Result<Items<Items<bool>>, AllocError>
    requires { AreProtocols problem.now list.now }
    ensures { IfOk result (λ candidates. candidates ≡ map (candidates_of problem.now) problem.now.slots) }
{
    let mut candidates = Items::new(alloc);
    for making in problem.slots.as_slice() {
        candidates.push(candidates_of(alloc, problem, list, making)?)?;
    }
    Ok(candidates)
}

/// What a row of the table of operations costs at a protocol, and 0 where it cannot stand there.
fn row_cost(row: Row, at: Proto) -> u32
    ensures { result ≡ unwrap_or (cost_at row at) 0 }
{
    match row {
        Row::Constant | Row::Carry | Row::Input(_) | Row::Variable => 0,
        Row::Apply(op) => op_cost(op, at),
    }
}

/// What the slot's operation costs at a protocol, if it can stand there.
pub fn weighed_cost(making: &Making, at: Proto) -> Option<u64>
    ensures { result ≡ weighed making.now.weight (cost_at making.now.row at) }
{
    if holds(making.row, at) {
        Some(product(making.weight, row_cost(making.row, at)))
    } else {
        None
    }
}

/// What the slot's operation costs at a place, if that is a candidate.
fn operation_at(problem: &Problem, list: &[Proto], making: &Making, place: usize) -> Option<u64>
    requires list { AreProtocols problem.now list.now }
    requires making { IsOver (names_of problem.now.hosts) making.now.label }
    requires place { place < length list.now }
    ensures { result ≡ operation_at problem.now making.now place }
{
    if is_candidate_at(problem, list, making, place as u32) {
        weighed_cost(making, list[place])
    } else {
        None
    }
}

/// What the slot's operation costs at each place.
fn operations_of(
    alloc: Global,
    problem: &Problem,
    list: &[Proto],
    making: &Making,
) -> Result<Items<Option<u64>>, AllocError>
    requires list { AreProtocols problem.now list.now }
    requires making { IsOver (names_of problem.now.hosts) making.now.label }
    ensures { IfOk result (λ row. row ≡ operations_of problem.now making.now) }
{
    let mut row = Items::new(alloc);
    for place in 0..list.len() {
        row.push(operation_at(problem, list, making, place))?;
    }
    Ok(row)
}

/// What the operation of each slot costs at each place.
fn all_operations(
    alloc: Global,
    problem: &Problem,
    list: &[Proto],
) -> Result<Items<Items<Option<u64>>>, AllocError>
    requires { AreProtocols problem.now list.now }
    ensures { IfOk result (λ terms. terms ≡ map (operations_of problem.now) problem.now.slots) }
{
    let mut terms = Items::new(alloc);
    for making in problem.slots.as_slice() {
        terms.push(operations_of(alloc, problem, list, making)?)?;
    }
    Ok(terms)
}

/// The sum of two numbers, if there are both.
fn sum_of(first: Option<u64>, second: Option<u64>) -> Option<u64>
    requires second { unwrap_or second 0 < 4294967296 }
    requires first { unwrap_or first 0 < 18446744065119617026 }
    ensures { result ≡ plus first second }
{
    match (first, second) {
        (Some(number), Some(other)) => Some(number + other),
        _ => None,
    }
}

/// What it costs to tell a host a value that stands at a place, if they join.
fn told_at(list: &[Proto], output: &Output, place: usize) -> Option<u64>
    requires { place < length list.now }
    ensures value { result ≡ weighed output.now.weight (move_at (proto_in list.now place) (local output.now.host)) }
    ensures fits { unwrap_or result 0 ≤ 18446744065119617025 }
{
    price(output.weight, list[place], Proto::Local(output.host))
}

/// What a slot costs at each place, with an output of its value besides.
fn with_output(
    alloc: Global,
    list: &[Proto],
    output: &Output,
    row: &[Option<u64>],
) -> Result<Items<Option<u64>>, AllocError>
    requires length { length row.now ≡ length list.now }
    requires small { (p : ℕ) → unwrap_or (slice_index_or row.now p None) 0 < 4294967296 }
    ensures { IfOk result (λ sums. sums ≡ with_output list.now output.now row.now) }
{
    let mut sums = Items::new(alloc);
    for place in 0..list.len() {
        let told = told_at(list, output, place);
        sums.push(sum_of(told, row[place]))?;
    }
    Ok(sums)
}

/// Adds an output to what its slot costs.
fn add_output(
    alloc: Global,
    list: &[Proto],
    output: &Output,
    terms: &mut Items<Items<Option<u64>>>,
) -> Result<(), AllocError>
    requires slot { output.now.slot.0 < length terms.old }
    requires length { length (row_at terms.old output.now.slot.0) ≡ length list.now }
    requires small { (p : ℕ) → unwrap_or (slice_index_or (row_at terms.old output.now.slot.0) p None) 0 < 4294967296 }
    ensures { OnOk result (terms.new ≡ terms_with list.now output.now terms.old) }
{
    let slot = usize::from(output.slot.0);
    let row = with_output(alloc, list, output, terms.as_slice()[slot].as_slice())?;
    terms.set(slot, row);
    Ok(())
}

/// What each slot costs at each place before any shift.
pub(crate) fn all_terms(
    alloc: Global,
    problem: &Problem,
    list: &[Proto],
) -> Result<Items<Items<Option<u64>>>, AllocError>
    requires list { AreProtocols problem.now list.now }
    requires well_formed { IsWellFormed problem.now }
    ensures { IfOk result (AreCosts problem.now problem.now.outputs) }
{
    let mut terms = all_operations(alloc, problem, list)?;
    let outputs = problem.outputs.as_slice();
    for at in (0..outputs.len()).rev() {
        add_output(alloc, list, &outputs[at], &mut terms)?;
    }
    Ok(terms)
}
