//! How many shifts there are. The function here does nothing: its contract is a law.

ghost use Rattle.std.specs.Prelude.{◌≤◌, length};
ghost use Rattle.vd_base.specs.Limits.{most_certificate_shifts};
ghost use Rattle.vd_space.specs.Labelled.{IsLabelled};
ghost use Rattle.vd_space.specs.Sizes.{IsWithinLimits};
ghost use Rattle.vd_space.specs.Usual.{usual};
ghost use Rattle.vd_space.specs.declared.problem.Problem.{Problem as Problems};

/// The usual shifts are at most as many as a certificate may have.
pub fn usual_shifts_are_few()
    ensures { (problem : Problems) → IsLabelled problem → IsWithinLimits problem → length (usual problem) ≤ most_certificate_shifts }
{}
