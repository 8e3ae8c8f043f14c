//! Which word a dealt pair converts, as it is read off what stands behind the pair. Nothing is computed here: the function's clause is
//! a law.

ghost use Rattle.vd_views.specs.ReadOff.{PairsAreReadOff};

/// In the plan of every program, at whatever protocols, the two hosts that take a dealt pair, and their registers of the word that it
/// converts, can be read off the three gadgets that follow it: the first host makes a number, turns its part by
/// that, and then both mask their parts of that word.
pub fn pairs_are_read_off()
    ensures { PairsAreReadOff }
{}
