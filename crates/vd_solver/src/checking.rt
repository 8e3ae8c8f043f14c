//! The checks at the least solution of the rules.

ghost use Rattle.std.specs.Prelude.{MatchOption};
ghost use Rattle.vd_constraints.specs.Outcomes.{HasNoLabelling};
ghost use Rattle.vd_constraints.specs.Satisfies.{IsLeast, IsLeastSolution};

use vd_constraints::{Labels, System};

/// The first check that fails at the least solution of the rules, so that no labelling satisfies the system; none where all hold, so that
/// this is the least labelling.
pub fn first_failing(system: &System, solution: &Labels) -> Option<u32>
    requires { IsLeastSolution system.now solution.now }
    ensures { MatchOption result (IsLeast system.now solution.now) (HasNoLabelling system.now) }
{
    for (place, check) in system.checks().iter().enumerate() {
        if !check.constant.acts_for(&solution.part(check.part)) {
            return Some(place as u32);
        }
    }
    None
}
