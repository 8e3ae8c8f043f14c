//! Generated sources are sources. Nothing is computed here: each function's clause is a law.

ghost use Rattle.std.specs.Prelude.{ℕ, List};
ghost use Rattle.vd_cmd_labels.specs.Outcomes.{TextOutcomes};
ghost use Rattle.vd_cmd_choose.specs.Claims.{AtEachSize, GivesSource, IsRead};

/// The text that is generated for 1 to 100 coordinates is that of a source: it has tokens and one tree, no bracket is too deep, and
/// no byte is too many. The source meets every rule on names, kinds and limits. The statements of its let-normal form are executed at
/// most five times for each coordinate, and five times more.
pub fn generated_texts_are_sources()
    ensures { AtEachSize GivesSource }
{}

/// Whatever functions pick the outcomes of texts, a generated text is never refused: neither for its bytes or its form, nor for its
/// names, kinds or limits.
pub fn generated_sources_are_read()
    ensures { (texts : TextOutcomes) (name : List ℕ) → AtEachSize (IsRead texts name) }
{}
