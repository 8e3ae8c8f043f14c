//! What holds of the calls. Nothing is computed here: each function's clauses are laws.

ghost use Rattle.vd_words.specs.Law.{SharedSumsAreABackend};
ghost use Rattle.vd_words.specs.Example.{FiveIsShared, SevenTimesSix};

/// The calls of two hosts that share sums do what those of a back end are to do, and act where they are said to.
pub fn shared_sums_are_a_back_end()
    ensures { SharedSumsAreABackend }
{}

/// Worked numbers: what is sent, and which parts are kept.
pub fn worked_numbers()
    ensures share { FiveIsShared }
    ensures product { SevenTimesSix }
{}
