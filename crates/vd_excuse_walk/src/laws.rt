//! What holds of both runs along steps. The function here does nothing: its clause is a law.

ghost use Rattle.vd_excuse_walk.specs.Following.{WalksAreFollowed};

/// Along steps the two runs as lists follow the two runs as functions of which the explaining deal is told, and the lists of the host
/// that does not look follow that deal, as long as no item is taken past the end of a list.
pub fn walks_are_followed()
    ensures { WalksAreFollowed }
{}
