ghost use Rattle.std.specs.Prelude.{◌≡◌, ◌≤◌, ◌&&◌, nat_le};
ghost use Rattle.vd_base.specs.Limits.{most_open_brackets};
ghost use Rattle.vd_parser.specs.Nesting as nesting;

use crate::operators::is;
use vd_base::limits::OPEN_BRACKETS;
use vd_source_lexer::{Token, TokenKind};

fn opens(kind: TokenKind) -> bool
    ensures { result ≡ nesting.opens kind }
{
    is(kind, TokenKind::OpenBrace)
        || is(kind, TokenKind::OpenParen)
        || is(kind, TokenKind::OpenBracket)
}

fn closes(kind: TokenKind) -> bool
    ensures { result ≡ nesting.closes kind }
{
    is(kind, TokenKind::CloseBrace)
        || is(kind, TokenKind::CloseParen)
        || is(kind, TokenKind::CloseBracket)
}

/// How many brackets are open behind a token.
fn open_behind(kind: TokenKind, depth: u32) -> u32
    requires { depth ≤ most_open_brackets }
    ensures { result ≡ nesting.open_behind kind depth }
{
    if opens(kind) {
        depth + 1
    } else if closes(kind) {
        depth.saturating_sub(1)
    } else {
        depth
    }
}

/// Whether a token opens a bracket beyond the limit.
fn is_too_deep(kind: TokenKind, depth: u32) -> bool
    ensures { result ≡ (nesting.opens kind && nat_le most_open_brackets depth) }
{
    opens(kind) && OPEN_BRACKETS <= depth
}

/// The number of the first token that opens a bracket beyond the limit.
pub(crate) fn first_deep(tokens: &[Token]) -> Option<usize>
    ensures { nesting.IsFirstDeepIn tokens.now result }
{
    let mut depth = 0;
    for (number, token) in tokens.iter().enumerate() {
        if is_too_deep(token.kind, depth) {
            return Some(number);
        }
        depth = open_behind(token.kind, depth);
    }
    None
}
