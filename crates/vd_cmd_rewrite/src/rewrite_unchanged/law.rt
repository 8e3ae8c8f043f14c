//! Nothing is computed.

ghost use Rattle.vd_cmd_rewrite.specs.Unchanged.{ChosenProgramsStay, ChosenDivisionsStay};

/// Where some list of protocols is valid, no branch is hidden, and the program stays as it is.
pub fn chosen_programs_stay()
    ensures { ChosenProgramsStay }
{}

/// And each slot has a candidate, so no division becomes a loop.
pub fn chosen_divisions_stay()
    ensures { ChosenDivisionsStay }
{}
