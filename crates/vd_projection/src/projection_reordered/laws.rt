//! What holds of the code of hosts in an order that waits less. Nothing is computed here.

ghost use Rattle.vd_projection.specs.Early.{EarlyCodeRunsAlike, EarlyTextsAreCareful};

/// On any lists: where the code of a program runs well, or to its end, so does the code in an order that waits less, and all hosts hold,
/// have taken and have printed the same at its end. What a host compares, prints and opens stays in its order until packets share, and on
/// each link the same packets go until then.
pub fn early_codes_run_alike()
    ensures { EarlyCodeRunsAlike }
{}

/// The text of a host is that of its hastened code. All that it does but for draws of own words, what it awaits and what it opens stand in
/// the order of the joint code.
pub fn early_texts_are_careful()
    ensures { EarlyTextsAreCareful }
{}
