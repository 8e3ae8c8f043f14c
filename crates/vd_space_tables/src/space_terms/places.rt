//! Which places of the list each slot may stand at.

ghost use Rattle.std.specs.Prelude.{◌≡◌, IfOk, length};
ghost use Rattle.vd_space_tables.specs.Prices.{candidates_of};
ghost use Rattle.vd_space_prefix.specs.Transfers.{by_place};
ghost use Rattle.vd_protocol.specs.Authority.{IsOver, names_of};
ghost use Rattle.vd_space.specs.Validity.{can_stand, protocols};
ghost use Rattle.vd_space.specs.WellFormed.{AreProtocols};

use std::alloc::{AllocError, Global};
use vd_base::{Items, Proto};
use vd_space::{Making, Problem, is_candidate_at};

/// Which places of the list are candidates, by slot.
pub fn candidates(
    alloc: Global,
    problem: &Problem,
    list: &[Proto],
) -> Result<Items<Items<bool>>, AllocError>
    requires { AreProtocols problem.now list.now }
    ensures { IfOk result (λ candidates. candidates ≡ candidates_of problem.now) }
{
    let mut candidates = Items::new(alloc);
    for making in problem.slots.as_slice() {
        candidates.push(candidates_at(alloc, problem, list, making)?)?;
    }
    Ok(candidates)
}

/// Which places of the list are candidates of a slot.
fn candidates_at(
    alloc: Global,
    problem: &Problem,
    list: &[Proto],
    making: &Making,
) -> Result<Items<bool>, AllocError>
    requires list { AreProtocols problem.now list.now }
    requires making { IsOver (names_of problem.now.hosts) making.now.label }
    ensures { IfOk result (λ candidates. candidates ≡ by_place (length (protocols problem.now)) (can_stand problem.now making.now)) }
{
    let mut candidates = Items::new(alloc);
    for place in 0..list.len() {
        candidates.push(is_candidate_at(problem, list, making, place as u32))?;
    }
    Ok(candidates)
}
