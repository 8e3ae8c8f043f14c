//! The law of what goes on.

ghost use Rattle.std.specs.Prelude.{◌↔◌, IsTrue, List};
ghost use Rattle.vd_source_lexer.specs.declared.token.Token.{Token};
ghost use Rattle.vd_source_lexer.specs.declared.token.TokenKind.{TokenKind};
ghost use Rattle.vd_diag_source.specs.Following.{GoesOn, goes_on};

/// Behind any tokens the machine goes on with the kinds with which the grammar does, and with no other.
pub fn goes_on_is_exact()
    ensures { (before : List Token) (k : TokenKind) → IsTrue (goes_on before k) ↔ GoesOn before k }
{}
