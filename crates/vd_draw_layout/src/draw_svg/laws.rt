//! What is true of every escaped text. The function here does nothing: its contract is a law.

ghost use Rattle.vd_draw_layout.specs.Escapes.{EscapedTextsHaveNoTags};

/// Whatever the bytes are, no byte of the escaped text begins or ends a tag.
pub fn escaped_texts_have_no_tags()
    ensures { EscapedTextsHaveNoTags }
{}
