//! What holds of the calls. Nothing is computed here: the function's clauses are laws.

ghost use Rattle.vd_commit.specs.Law.{CommittingBinds, RevealingGivesTheWord, CommitmentsActAtBoth};

/// A host is bound to the word that it committed to, and revealing it gives that word: no comparison fails.
pub fn what_is_revealed_was_committed()
    ensures commit { CommittingBinds }
    ensures reveal { RevealingGivesTheWord }
    ensures acts { CommitmentsActAtBoth }
{}
