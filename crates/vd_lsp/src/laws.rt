//! What the outcome of a text is. The function here does nothing: its contract is a law.

ghost use Rattle.vd_lsp.specs.Outcomes.{FaultsAreThoseOfLabels};

/// The outcome of a text is the status with which `labels` ends on a file that has it.
pub fn faults_are_those_of_labels()
    ensures { FaultsAreThoseOfLabels }
{}
