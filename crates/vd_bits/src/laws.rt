//! What holds of the calls. Nothing is computed here: each function's clauses are laws.

ghost use Rattle.vd_bits.specs.Law.{SharedBitsAreABackend, CircuitsGiveResults};
ghost use Rattle.vd_bits.specs.Example.{EightIsInBoth};

/// The calls of two hosts that share words by exclusive or do what those of a back end are to do, and act where they are
/// said to; and the gates of each operation that can stand there give its result.
pub fn shared_bits_are_a_back_end()
    ensures calls { SharedBitsAreABackend }
    ensures circuits { CircuitsGiveResults }
{}

/// Worked numbers: what is sent, which words are opened, and which parts are kept.
pub fn worked_bits()
    ensures { EightIsInBoth }
{}
