//! The first use, index or guard for which no places are left.

ghost use Rattle.std.specs.Prelude.{◌≡◌, IfOk};
ghost use Rattle.vd_space.specs.WellFormed.{AreProtocols};
ghost use Rattle.vd_diag_terminal.specs.Stuck as spec;

use crate::diag_choice::left::{Walked, left_at, walk};
use std::alloc::{AllocError, Global};
use vd_base::{Items, Proto, SlotId};
use vd_space::{Guard, Problem, are_holders_told};

/// Where no choice can be valid.
#[derive(Clone, Copy)]
pub(crate) enum Stuck {
    /// The use with this number: no word comes to a place that is left to its target.
    Use(usize),
    /// The index with this number: it may not be read by all hosts that keep its array.
    Index(usize),
    /// The guard with this number: it may not be read by all hosts that keep this slot of its branches.
    Guard(usize, SlotId),
}

/// Whether at one of the places that are left to a slot each host may read the one that is told.
fn can_be_told(
    problem: &Problem,
    list: &[Proto],
    left: &[Items<u32>],
    told: SlotId,
    kept: SlotId,
) -> bool
    requires { AreProtocols problem.now list.now }
    ensures { result ≡ spec.can_be_told problem.now left.now told kept }
{
    for place in left_at(left, kept) {
        if are_holders_told(problem, list, &[], told, *place) {
            return true;
        }
    }
    false
}

/// The number of the first index that no place of its array tells.
fn first_index(problem: &Problem, list: &[Proto], left: &[Items<u32>]) -> Option<usize>
    requires { AreProtocols problem.now list.now }
    ensures { result ≡ spec.first_index problem.now left.now problem.now.indexes 0 }
{
    let indexes = problem.indexes.as_slice();
    for (number, index) in indexes.iter().enumerate() {
        if !can_be_told(problem, list, left, index.index, index.array) {
            return Some(number);
        }
    }
    None
}

/// The first slot of the branches of a guard of which no place tells the guard.
fn first_slot(
    problem: &Problem,
    list: &[Proto],
    left: &[Items<u32>],
    guard: &Guard,
) -> Option<SlotId>
    requires { AreProtocols problem.now list.now }
    ensures { result ≡ spec.first_slot problem.now left.now guard.now }
{
    for kept in guard.slots.as_slice() {
        if !can_be_told(problem, list, left, guard.slot, *kept) {
            return Some(*kept);
        }
    }
    None
}

/// The first guard that no place of a slot of its branches tells.
fn first_guard(problem: &Problem, list: &[Proto], left: &[Items<u32>]) -> Option<Stuck>
    requires { AreProtocols problem.now list.now }
    ensures { result ≡ spec.first_guard problem.now left.now problem.now.guards 0 }
{
    let guards = problem.guards.as_slice();
    for (number, guard) in guards.iter().enumerate() {
        if let Some(kept) = first_slot(problem, list, left, guard) {
            return Some(Stuck::Guard(number, kept));
        }
    }
    None
}

/// The first index or guard for which no places are left.
fn first_untold(problem: &Problem, list: &[Proto], left: &[Items<u32>]) -> Option<Stuck>
    requires { AreProtocols problem.now list.now }
    ensures { result ≡ spec.index_or (spec.first_index problem.now left.now problem.now.indexes 0)
        (spec.first_guard problem.now left.now problem.now.guards 0) }
{
    match first_index(problem, list, left) {
        Some(number) => Some(Stuck::Index(number)),
        None => first_guard(problem, list, left),
    }
}

/// What is stuck by the places that the uses left.
fn stuck_of(problem: &Problem, list: &[Proto], walked: &Walked) -> Option<Stuck>
    requires { AreProtocols problem.now list.now }
    ensures { result ≡ spec.stuck_of problem.now walked.now }
{
    match walked.stuck {
        Some(number) => Some(Stuck::Use(number)),
        None => first_untold(problem, list, walked.left.as_slice()),
    }
}

/// The first use, else the first index, else the first guard for which no places are left.
pub(crate) fn first_stuck(
    alloc: Global,
    problem: &Problem,
    list: &[Proto],
) -> Result<Option<Stuck>, AllocError>
    requires { AreProtocols problem.now list.now }
    ensures { IfOk result (λ stuck. stuck ≡ spec.first_stuck problem.now) }
{
    let walked = walk(alloc, problem, list)?;
    Ok(stuck_of(problem, list, &walked))
}
