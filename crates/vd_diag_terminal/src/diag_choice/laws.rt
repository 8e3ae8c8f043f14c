//! The law of candidates.

ghost use Rattle.std.specs.Prelude.{All, IsTrue, List, ℕ};
ghost use Rattle.vd_diag_terminal.specs.Bare.{HasCandidate};
ghost use Rattle.vd_space.specs.Validity.{is_valid};
ghost use Rattle.vd_space.specs.declared.problem.Problem.{Problem};

/// Where a list of protocols for the first slots is valid, be it empty or whole, each slot has a candidate.
pub fn valid_lists_stand_at_candidates()
    ensures { (problem : Problem) (list : List ℕ) → IsTrue (is_valid problem list) → All (HasCandidate problem) problem.slots }
{}
