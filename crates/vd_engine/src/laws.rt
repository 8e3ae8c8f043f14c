//! What holds of all hosts over their links. Nothing is computed here: the function's clause is a law.

ghost use Rattle.vd_engine.specs.Enough.{EnoughEndsWell};

/// Where all that a host wants is there, and neither a link nor the sink failed, it runs to its end.
pub fn enough_ends_well()
    ensures { EnoughEndsWell }
{}
