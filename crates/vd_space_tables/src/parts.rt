//! The parts of tables, as they are made.

ghost use Rattle.std.specs.Prelude.{◌≡◌, ◌≤◌, IfOk, length, map};
ghost use Rattle.vd_base.specs.Limits.{most_certificate_shifts};
ghost use Rattle.vd_space_tables.specs.Prices.{candidates_of};
ghost use Rattle.vd_space.specs.Sizes.{IsWithinLimits};
ghost use Rattle.vd_space.specs.WellFormed.{AreProtocols, IsWellFormed};
ghost use Rattle.vd_space_tables.specs.Charges.{AreCandidates, telling_of};
ghost use Rattle.vd_space_tables.specs.Parts.{AreCharges, AreKept, AreMoved, AreSmallOnSlots, AreSmallParts, start_of};

use crate::charges::{Charge, operation_charges, output_charges};
use crate::gains::gains_by_slot;
use crate::made::{Charges, Kept, Moved};
use crate::shifted::merged_charges;
use crate::space_terms::{index_arcs, index_prices, move_prices, shifted_use_arcs, use_arcs};
use crate::start::{common_start, low_start, shifted_start};
use crate::tellings::tellings_by_guard;
use std::alloc::{AllocError, Global};
use vd_base::{Items, Proto};
use vd_search_tree::Shift;
use vd_space::Problem;
use vd_space_prefix::{Sums, Telling, namings};

/// What is moved between two slots.
pub(crate) fn moved_values(
    alloc: Global,
    problem: &Problem,
    list: &[Proto],
    candidates: &[Items<bool>],
    shifts: &[Shift],
) -> Result<Moved, AllocError>
    requires list { AreProtocols problem.now list.now }
    requires well_formed { IsWellFormed problem.now }
    requires candidates { candidates.now ≡ candidates_of problem.now }
    requires few { length shifts.now ≤ most_certificate_shifts }
    ensures { IfOk result (AreMoved problem.now shifts.now) }
{
    let moves = move_prices(alloc, list)?;
    let tells = index_prices(alloc, problem, list)?;
    let arcs = use_arcs(alloc, problem, moves.as_slice(), candidates)?;
    let shifted_arcs = shifted_use_arcs(alloc, problem, moves.as_slice(), candidates, shifts)?;
    let index_arcs = index_arcs(alloc, problem, tells.as_slice(), candidates)?;
    Ok(Moved {
        moves,
        tells,
        arcs,
        shifted_arcs,
        index_arcs,
    })
}

/// What slots alone cost.
pub(crate) fn slot_charges(
    alloc: Global,
    problem: &Problem,
    list: &[Proto],
    candidates: &[Items<bool>],
    shifts: &[Shift],
) -> Result<Charges, AllocError>
    requires list { AreProtocols problem.now list.now }
    requires well_formed { IsWellFormed problem.now }
    requires candidates { AreCandidates problem.now candidates.now }
    requires shifts { length shifts.now ≤ most_certificate_shifts }
    ensures charges { IfOk result (AreCharges problem.now shifts.now) }
    ensures small { IfOk result (λ charges. AreSmallOnSlots problem.now shifts.now) }
{
    Ok(Charges {
        operations: operation_charges(alloc, problem, list, candidates)?,
        outputs: output_charges(alloc, problem, list, candidates)?,
        merged: merged_charges(alloc, problem, list, candidates, shifts)?,
    })
}

/// The other parts.
pub(crate) fn kept_parts(
    alloc: Global,
    problem: &Problem,
    list: &[Proto],
    candidates: &[Items<bool>],
    charges: &Charges,
    moved: &Moved,
) -> Result<Kept, AllocError>
    requires list { AreProtocols problem.now list.now }
    requires well_formed { IsWellFormed problem.now }
    requires candidates { AreCandidates problem.now candidates.now }
    requires parts { AreSmallParts charges.now moved.now }
    ensures { IfOk result (AreKept problem.now charges.now moved.now) }
{
    let tellings = tellings_by_guard(alloc, problem, list, candidates)?;
    let start = start(problem, list, charges, moved, tellings.as_slice());
    Ok(Kept {
        tellings,
        gains: gains_by_slot(
            alloc,
            charges.operations.as_slice(),
            charges.outputs.as_slice(),
        )?,
        shifted_gains: gains_by_slot(alloc, charges.merged.as_slice(), &[])?,
        naming: namings(alloc, problem)?,
        start,
    })
}

/// The sums of the empty prefix.
fn start(
    problem: &Problem,
    list: &[Proto],
    charges: &Charges,
    moved: &Moved,
    tellings: &[Telling],
) -> Sums
    requires list { AreProtocols problem.now list.now }
    requires limits { IsWithinLimits problem.now }
    requires parts { AreSmallParts charges.now moved.now }
    requires tellings { tellings.now ≡ map (telling_of problem.now) problem.now.guards }
    ensures { result ≡ start_of problem.now charges.now moved.now }
{
    Sums {
        low: low_start(charges, moved),
        shifted: shifted_start(charges, moved),
        common: common_start(problem, list, moved, tellings),
    }
}
