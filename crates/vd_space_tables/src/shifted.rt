//! The charges of slots under shifts.

ghost use Rattle.std.specs.Prelude.{◌≡◌, ◌≤◌, ◌<◌, [], IfOk, length, slice_index_or};
ghost use Rattle.vd_base.specs.Limits.{most_certificate_shifts};
ghost use Rattle.vd_space_tables.specs.Sums.{AreSmallSums};
ghost use Rattle.vd_space.specs.Sizes.{IsWithinLimits};
ghost use Rattle.vd_space.specs.WellFormed.{AreProtocols};
ghost use Rattle.vd_space_tables.specs.Charges.{AreCandidates, merged_charge_of, merged_of};
ghost use Rattle.vd_space_tables.specs.Parts.{AreSmallOnSlots};

use crate::charges::{Charge, tests_at};
use crate::space_terms::slot_shifts;
use crate::values::merged_values;
use std::alloc::{AllocError, Global};
use vd_base::{Items, Proto};
use vd_search_tree::Shift;
use vd_space::Problem;

/// The charges of operations and outputs together, with what shifts put on them, by slot.
pub(crate) fn merged_charges(
    alloc: Global,
    problem: &Problem,
    list: &[Proto],
    candidates: &[Items<bool>],
    shifts: &[Shift],
) -> Result<Items<Charge>, AllocError>
    requires list { AreProtocols problem.now list.now }
    requires limits { IsWithinLimits problem.now }
    requires candidates { AreCandidates problem.now candidates.now }
    requires shifts { length shifts.now ≤ most_certificate_shifts }
    ensures charges { IfOk result (λ charges. charges ≡ merged_of problem.now shifts.now) }
    ensures small { IfOk result (λ charges. AreSmallOnSlots problem.now shifts.now) }
{
    let sums = slot_shifts(alloc, problem, shifts, list.len())?;
    let mut charges = Items::new(alloc);
    for slot in 0..candidates.len() {
        let charge = merged_charge(alloc, problem, list, candidates, slot, sums.as_slice())?;
        charges.push(charge)?;
    }
    Ok(charges)
}

/// The charge of a slot's operation and outputs together, with what shifts put on them.
fn merged_charge(
    alloc: Global,
    problem: &Problem,
    list: &[Proto],
    candidates: &[Items<bool>],
    slot: usize,
    sums: &[Items<i64>],
) -> Result<Charge, AllocError>
    requires list { AreProtocols problem.now list.now }
    requires limits { IsWithinLimits problem.now }
    requires slot { slot < length problem.now.slots }
    requires sums { AreSmallSums sums.now }
    ensures { IfOk result (λ charge. charge ≡ merged_charge_of problem.now (length list.now) candidates.now sums.now slot) }
{
    let values = merged_values(alloc, problem, list, slot, sums_at(sums, slot))?;
    let tests = tests_at(candidates, slot);
    Charge::of(alloc, slot as u32, values.as_slice(), tests)
}

/// What shifts put on a slot, by place.
fn sums_at(sums: &[Items<i64>], slot: usize) -> &[i64]
    ensures { result.now ≡ slice_index_or sums.now slot [] }
{
    match sums.get(slot) {
        Some(row) => row.as_slice(),
        None => &[],
    }
}
