//! What calls tell openly, how many words they send, and what they compare. Nothing is computed here: each function's clauses are
//! laws.

ghost use Rattle.vd_backend_laws.specs.BackendOpeningsLaw.{ClearCallsTell, SumsTellWhatIsShown, BitsTellWhatIsShown, CircuitsTellWhatIsShown};
ghost use Rattle.vd_backend_laws.specs.BackendOpeningsLaw.{ConversionsTellTheRest, CommitmentsTell};
ghost use Rattle.vd_backend_laws.specs.Sent.{WordsAreSent};
ghost use Rattle.vd_backend_laws.specs.Compared.{CopiesAreCompared, NoncesAreDrawn, DigestsAreCompared};

/// Hosts with copies tell them where they are passed on or shown, and to no others. Two hosts that share words open parts only
/// where a word is shown, and only to whom it is shown. A conversion opens nothing, or what is left of a word when the dealt
/// pair's is taken off. A commitment tells its digest, and what it binds where it is revealed.
pub fn only_what_is_shown_is_told()
    ensures copies { ClearCallsTell }
    ensures sums { SumsTellWhatIsShown }
    ensures bits { BitsTellWhatIsShown }
    ensures circuits { CircuitsTellWhatIsShown }
    ensures conversions { ConversionsTellTheRest }
    ensures commitments { CommitmentsTell }
{}

/// So many words each call of two hosts sends: one to share or to show a word, four for a product.
pub fn so_many_words_are_sent()
    ensures { WordsAreSent }
{}

/// A nonce is own words, each taken next. Where copies differ that are shown to a host, or a kept digest is not that of what is
/// revealed, some comparison fails.
pub fn what_differs_is_found()
    ensures copies { CopiesAreCompared }
    ensures nonces { NoncesAreDrawn }
    ensures digests { DigestsAreCompared }
{}
