//! Who asks for a flow check, as a person is told it, asks for just that check. Nothing is computed here: the clause of the function is
//! a law.

ghost use Rattle.vd_constraints.specs.Asking.{ChecksAreAskedFor};

/// The checks of a program stand beside their origins, one for one, and each is a check that its origin asks for: of the host that it
/// names, or of the label that the source writes at the slot.
pub fn checks_are_asked_for()
    ensures { ChecksAreAskedFor }
{}
