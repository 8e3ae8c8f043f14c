//! What is true of the counts of prefixes by which it is judged how hard a problem is, and worked values; nothing is computed.

ghost use Rattle.std.specs.Prelude.{◌≡◌, ◌≤◌, [], ℤ, pos};
ghost use Rattle.vd_space.specs.Network.{by_arcs};
ghost use Rattle.vd_space.specs.Worked.{negated, unreadable};
ghost use Rattle.vd_space.specs.Bounds.{high, low};
ghost use Rattle.vd_space.specs.Usual.{firm, hard, usual};
ghost use Rattle.vd_space.specs.declared.problem.Problem.{Problem};

/// Of a word that alice hands in, that is negated bit by bit and told to bob: by the terms alone the whole list seems to cost 1,
/// and two prefixes are within 5; under the usual shifts it is shown that it costs 6. Within 6 are the empty prefix, alice, and
/// the two lists that negate it at alice or at bob.
pub fn counts_are_worked()
    ensures low { low negated [] ≡ pos 1 }
    ensures high { high negated (usual negated) [] ≡ pos 6 }
    ensures hard_below { hard negated (pos 5) ≡ 2 }
    ensures firm_below { firm negated (pos 5) ≡ 0 }
    ensures hard_at { hard negated (pos 6) ≡ 4 }
    ensures firm_at { firm negated (pos 6) ≡ 4 }
{}

/// A term with nothing left counts 1,000,000,000 units, and so does a point with nothing left in parts of 1/256 of a unit.
pub fn nothing_left_is_dear()
    ensures low { low unreadable [] ≡ pos 1000000000 }
    ensures high { high unreadable [] [] ≡ pos 1000000000 }
    ensures by_arcs { by_arcs unreadable [] [] ≡ pos 256000000000 }
{}

/// At every cost no more prefixes are within it by the greater of both bounds than by the first bound alone. So a budget that is
/// enough by the first is enough.
pub fn firm_is_at_most_hard()
    ensures { (problem : Problem) (cost : ℤ) → firm problem cost ≤ hard problem cost }
{}
