ghost use Rattle.std.specs.Prelude.{◌≡◌, nat_eq};
ghost use Rattle.vd_source_lexer.specs.Kinds.{code_of};
ghost use Rattle.vd_parser.specs.Levels.{comparison_at, infix_at, prefix_at, direction_at};

use vd_core::{Direction, Infix, Prefix};
use vd_source_lexer::TokenKind;

/// The levels of precedence of the infix operators that chain, from the loosest. Shifts stand between And and Sum.
#[derive(Clone, Copy)]
pub(crate) enum Level {
    Or,
    Xor,
    And,
    Sum,
    Product,
}

/// Whether a kind is the wanted one.
pub(crate) fn is(kind: TokenKind, wanted: TokenKind) -> bool
    ensures { result ≡ nat_eq (code_of kind) (code_of wanted) }
{
    kind.code() == wanted.code()
}

/// The infix operator of this level that a token of this kind is.
pub(crate) fn infix(level: Level, kind: TokenKind) -> Option<Infix>
    ensures { result ≡ infix_at level kind }
{
    match level {
        Level::Or => if is(kind, TokenKind::Pipe) {
            Some(Infix::Or)
        } else {
            None
        },
        Level::Xor => if is(kind, TokenKind::Caret) {
            Some(Infix::Xor)
        } else {
            None
        },
        Level::And => if is(kind, TokenKind::Ampersand) {
            Some(Infix::And)
        } else {
            None
        },
        Level::Sum => {
            if is(kind, TokenKind::Plus) {
                Some(Infix::Add)
            } else if is(kind, TokenKind::Minus) {
                Some(Infix::Sub)
            } else {
                None
            }
        }
        Level::Product => {
            if is(kind, TokenKind::Star) {
                Some(Infix::Mul)
            } else if is(kind, TokenKind::Slash) {
                Some(Infix::Div)
            } else if is(kind, TokenKind::Percent) {
                Some(Infix::Rem)
            } else {
                None
            }
        }
    }
}

/// The comparison that a token of this kind is.
pub(crate) fn comparison(kind: TokenKind) -> Option<Infix>
    ensures { result ≡ comparison_at kind }
{
    if is(kind, TokenKind::EqualEqual) {
        Some(Infix::Equal)
    } else if is(kind, TokenKind::NotEqual) {
        Some(Infix::NotEqual)
    } else if is(kind, TokenKind::Less) {
        Some(Infix::Less)
    } else if is(kind, TokenKind::LessEqual) {
        Some(Infix::LessEqual)
    } else if is(kind, TokenKind::Greater) {
        Some(Infix::Greater)
    } else if is(kind, TokenKind::GreaterEqual) {
        Some(Infix::GreaterEqual)
    } else {
        None
    }
}

/// The operator before an operand that a token of this kind is.
pub(crate) fn prefix(kind: TokenKind) -> Option<Prefix>
    ensures { result ≡ prefix_at kind }
{
    if is(kind, TokenKind::Bang) {
        Some(Prefix::Flip)
    } else if is(kind, TokenKind::Tilde) {
        Some(Prefix::Not)
    } else {
        None
    }
}

/// Which way a shift goes.
pub(crate) fn direction(kind: TokenKind) -> Option<Direction>
    ensures { result ≡ direction_at kind }
{
    if is(kind, TokenKind::ShiftLeft) {
        Some(Direction::Left)
    } else if is(kind, TokenKind::ShiftRight) {
        Some(Direction::Right)
    } else {
        None
    }
}
