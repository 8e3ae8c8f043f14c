//! What holds of the calls. Nothing is computed here: the function's clauses are laws.

ghost use Rattle.vd_convert.specs.Law.{SumsBecomeBits, BitsBecomeSums, ConversionsActAtBoth};

/// What a conversion gives stands for the word that it was given, and both hosts act.
pub fn conversions_keep_the_word()
    ensures bits { SumsBecomeBits }
    ensures sums { BitsBecomeSums }
    ensures acts { ConversionsActAtBoth }
{}
