//! Slots without a candidate.

ghost use Rattle.std.specs.Prelude.{All, MatchOption};
ghost use Rattle.vd_constraints.specs.Satisfies.{IsFirstWithout};
ghost use Rattle.vd_diag_terminal.specs.Bare.{HasCandidate};
ghost use Rattle.vd_space.specs.WellFormed.{AreProtocols};

use vd_base::Proto;
use vd_space::{Problem, has_candidate};

/// The number of the first slot that has no candidate, if there is one: a protocol at which the slot can stand, and whose
/// authority covers the slot's label. `list` has all protocols.
pub(crate) fn first_bare(problem: &Problem, list: &[Proto]) -> Option<usize>
    requires { AreProtocols problem.now list.now }
    ensures { MatchOption result (All (HasCandidate problem.now) problem.now.slots)
        (IsFirstWithout (HasCandidate problem.now) problem.now.slots) }
{
    let makings = problem.slots.as_slice();
    for (place, making) in makings.iter().enumerate() {
        if !has_candidate(problem, list, making) {
            return Some(place);
        }
    }
    None
}
