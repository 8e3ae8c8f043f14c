//! Which words a key deals. Nothing is computed here: the function's clauses are laws.

ghost use Rattle.vd_tape.specs.Drawn.{DealsAreDrawn, EachIsDrawnOnce, NumbersAreApart, PlacesAreApart, WordsAreOfBlocks};

/// The word at a place of a stream is that of ChaCha20 for the key, the stream and the place: words of two keys, of two streams or at
/// two places are of blocks that begin with two states, or two words of one block. So are two words of deals: the own words of the
/// hosts, and the words of each kind of items of each two hosts. Each number has a key of its own, and deals the words of that.
pub fn what_is_dealt_is_drawn_once()
    ensures words { WordsAreOfBlocks }
    ensures places { PlacesAreApart }
    ensures dealt { DealsAreDrawn }
    ensures once { EachIsDrawnOnce }
    ensures numbers { NumbersAreApart }
{}
