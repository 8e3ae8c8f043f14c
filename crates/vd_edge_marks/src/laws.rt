//! What holds of marks that stand in a user's folder too. The function here does nothing: its contract is a law.

ghost use Rattle.vd_edge_marks.specs.Views.{NoCopyServesTwice};

/// No copy of a deal serves twice: of two claims of one name for one user only the first is new, in whatever folders the files are.
pub fn no_copy_serves_twice()
    ensures { NoCopyServesTwice }
{}
