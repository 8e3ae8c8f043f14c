//! What holds of differences. The function here does nothing: its clauses are laws.

ghost use Rattle.std.specs.Prelude.{ℕ, List};
ghost use Rattle.vd_noninter_protocols.specs.Difference.{first_difference, IsFirstDifference, DiffersExactly};

/// The place that is found is the first at which the lists differ, or one of them has ended; and none is found exactly where a
/// host has the same inputs, each list followed by zeros, and the same clear words come to it.
pub fn differences_are_exact()
    ensures first { (xs ys : List ℕ) → IsFirstDifference xs ys (first_difference xs ys) }
    ensures exact { DiffersExactly }
{}
