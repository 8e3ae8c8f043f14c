//! Terms of one slot with their least values.

ghost use Rattle.std.specs.Prelude.{◌≡◌, ◌≤◌, ◌<◌, [], None, unwrap_or, IfOk, length, map, slice_index_or};
ghost use Rattle.vd_base.specs.Limits.{most_weights};
ghost use Rattle.vd_space_prefix.specs.Transfers.{least_where};
ghost use Rattle.vd_space.specs.Bounds.{nothing_left, only_if};
ghost use Rattle.vd_space.specs.Costs.{operation_term};
ghost use Rattle.vd_space.specs.Sizes.{IsWithinLimits};
ghost use Rattle.vd_space.specs.Spaces.{IsProblem};
ghost use Rattle.vd_space.specs.WellFormed.{AreProtocols};
ghost use Rattle.vd_space_tables.specs.Charges.{AreCandidates, charge_from, charge_of, operations_of, outputs_of, told_term};

use crate::values::{operation_values, told_values};
use std::alloc::{AllocError, Global};
use vd_base::{HostId, Items, Proto, SlotId};
use vd_space::{Problem, lesser_of};
use vd_space_prefix::number_of;

/// What a slot alone costs for one term: by the place where it stands, and at least where it is not decided.
#[derive(Drop)]
pub(crate) struct Charge {
    pub slot: u32,
    pub costs: Items<i64>,
    pub free: i64,
}

impl Charge {
    /// The charge of values by place, where the slot may stand at the places that pass.
    pub fn of(
        alloc: Global,
        slot: u32,
        values: &[Option<i64>],
        tests: &[bool],
    ) -> Result<Charge, AllocError>
        ensures { IfOk result (λ charge. charge ≡ charge_from slot values.now tests.now) }
    {
        Ok(Charge {
            slot,
            costs: costs(alloc, values)?,
            free: number_of(least_where_passing(values, tests)),
        })
    }
}

/// The values, with what counts where there is none.
fn costs(alloc: Global, values: &[Option<i64>]) -> Result<Items<i64>, AllocError>
    ensures { IfOk result (λ costs. costs ≡ map (λ value. unwrap_or value nothing_left) values.now) }
{
    let mut costs = Items::new(alloc);
    for value in values {
        costs.push(number_of(*value))?;
    }
    Ok(costs)
}

/// The least of the values at the places that pass.
fn least_where_passing(values: &[Option<i64>], tests: &[bool]) -> Option<i64>
    ensures { result ≡ least_where tests.now (λ p. slice_index_or values.now p None) }
{
    let mut least = None;
    for (place, test) in tests.iter().enumerate() {
        least = lesser_of(least, value_if(*test, values, place));
    }
    least
}

/// The value at a place, if there is one and the test passes.
fn value_if(test: bool, values: &[Option<i64>], place: usize) -> Option<i64>
    ensures { result ≡ only_if test (slice_index_or values.now place None) }
{
    if !test {
        return None;
    }
    match values.get(place) {
        Some(value) => *value,
        None => None,
    }
}

/// The charges of operations, by slot.
pub(crate) fn operation_charges(
    alloc: Global,
    problem: &Problem,
    list: &[Proto],
    candidates: &[Items<bool>],
) -> Result<Items<Charge>, AllocError>
    requires list { AreProtocols problem.now list.now }
    requires limits { IsWithinLimits problem.now }
    requires candidates { AreCandidates problem.now candidates.now }
    ensures { IfOk result (λ charges. charges ≡ operations_of problem.now) }
{
    let mut charges = Items::new(alloc);
    for slot in 0..candidates.len() {
        charges.push(operation_charge(alloc, problem, list, candidates, slot)?)?;
    }
    Ok(charges)
}

/// The charge of a slot's operation.
fn operation_charge(
    alloc: Global,
    problem: &Problem,
    list: &[Proto],
    candidates: &[Items<bool>],
    slot: usize,
) -> Result<Charge, AllocError>
    requires list { AreProtocols problem.now list.now }
    requires limits { IsWithinLimits problem.now }
    requires candidates { AreCandidates problem.now candidates.now }
    requires slot { slot < length problem.now.slots }
    ensures { IfOk result (λ charge. charge ≡ charge_of problem.now (operation_term problem.now slot)) }
{
    let values = operation_values(alloc, problem, list, slot)?;
    let tests = tests_at(candidates, slot);
    Charge::of(alloc, slot as u32, values.as_slice(), tests)
}

/// The charges of outputs.
pub(crate) fn output_charges(
    alloc: Global,
    problem: &Problem,
    list: &[Proto],
    candidates: &[Items<bool>],
) -> Result<Items<Charge>, AllocError>
    requires list { AreProtocols problem.now list.now }
    requires holds { IsProblem problem.now }
    requires limits { IsWithinLimits problem.now }
    requires candidates { AreCandidates problem.now candidates.now }
    ensures { IfOk result (λ charges. charges ≡ outputs_of problem.now) }
{
    let mut charges = Items::new(alloc);
    for output in problem.outputs.as_slice() {
        let charge = told_charge(
            alloc,
            problem,
            list,
            candidates,
            output.slot,
            output.weight,
            output.host,
        )?;
        charges.push(charge)?;
    }
    Ok(charges)
}

/// The charge of telling a slot's value so often to a host.
pub(crate) fn told_charge(
    alloc: Global,
    problem: &Problem,
    list: &[Proto],
    candidates: &[Items<bool>],
    slot: SlotId,
    weight: u32,
    host: HostId,
) -> Result<Charge, AllocError>
    requires list { AreProtocols problem.now list.now }
    requires candidates { AreCandidates problem.now candidates.now }
    requires slot { slot.0 < length problem.now.slots }
    requires weight { weight ≤ most_weights }
    ensures { IfOk result (λ charge. charge ≡ charge_of problem.now (told_term problem.now slot.0 weight host)) }
{
    let values = told_values(alloc, problem, list, weight, host)?;
    let tests = tests_at(candidates, slot.0 as usize);
    Charge::of(alloc, slot.0 as u32, values.as_slice(), tests)
}

/// Which places are candidates of a slot.
pub(crate) fn tests_at(candidates: &[Items<bool>], slot: usize) -> &[bool]
    ensures { result.now ≡ slice_index_or candidates.now slot [] }
{
    match candidates.get(slot) {
        Some(row) => row.as_slice(),
        None => &[],
    }
}
