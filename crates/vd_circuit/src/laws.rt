//! What holds of the calls. Nothing is computed here: each function's clause is a law.

ghost use Rattle.vd_circuit.specs.Law.{CircuitsAreABackend};
ghost use Rattle.vd_circuit.specs.Example.{TwelveWithTen};

/// The calls of two hosts that compute by circuits do what those of a back end are to do, and act where they are said to.
pub fn circuits_are_a_back_end()
    ensures { CircuitsAreABackend }
{}

/// Worked numbers: the parts of a difference, of a least and of a comparison.
pub fn worked_circuits()
    ensures { TwelveWithTen }
{}
