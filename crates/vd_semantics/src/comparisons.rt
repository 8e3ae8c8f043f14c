//! What comparisons of the source give; nothing is computed.

ghost use Rattle.vd_semantics.specs.Comparisons.{ComparisonsOrder};

/// Each comparison of the source is 1 where the numbers stand in its order, and 0 where they do not.
pub fn comparisons_order()
    ensures { ComparisonsOrder }
{}
