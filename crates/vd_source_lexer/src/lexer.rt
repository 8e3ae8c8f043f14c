ghost use Rattle.std.specs.Prelude.{◌≤◌, length, All, IfOk, IfErr};
ghost use Rattle.vd_source_lexer.specs.Tokens.{token_at, Lexes, BadFits, LexesOnce, EndsOnce, IsSpelled, kinds};
ghost use Rattle.std.specs.Prelude.{◌≡◌, ◌+◌, ◌^◌, ◌<◌, ℕ, List, map};
ghost use Rattle.vd_base.specs.Limits.{most_source_bytes};
ghost use Rattle.vd_base.specs.Lexical.{keywords};
ghost use Rattle.vd_source_lexer.specs.Tables.{keyword_kinds};

use crate::piece::{Piece, first_piece};
use crate::token::{LexFault, Token, TokenKind};
use std::alloc::Global;
use vd_base::{Items, Span};

/// The tokens of a source in text order, the end last.
pub fn tokens(alloc: Global, bytes: &[u8]) -> Result<Items<Token>, LexFault>
    requires { length bytes.now ≤ most_source_bytes }
    ensures ok { IfOk result (λ found. Lexes bytes.now 0 found) }
    ensures bad { IfErr result (λ fault. BadFits bytes.now fault) }
    ensures ended { IfOk result (λ found. EndsOnce (kinds found)) }
    ensures spelled { IfOk result (λ found. All (IsSpelled bytes.now) found) }
{
    let mut found = Items::new(alloc);
    let mut at = 0;
    while at < bytes.len() {
        match first_piece(&bytes[at..]) {
            Piece::Blank(len) => at += len,
            Piece::Lexeme(kind, len, value) => {
                found.push(token(kind, at, len, value))?;
                at += len;
            }
            Piece::Bad => return Err(LexFault::BadByte(at as u32)),
        }
    }
    found.push(token(TokenKind::End, at, 0, 0))?;
    Ok(found)
}

fn token(kind: TokenKind, start: usize, len: usize, value: u32) -> Token
    requires { start + len < 2 ^ 32 }
    ensures { result ≡ token_at kind start len value }
{
    Token {
        kind,
        span: Span {
            start: start as u32,
            end: (start + len) as u32,
        },
        value,
    }
}

/// A text has either tokens or a first bad byte, and only one of each.
pub fn lexing_is_determined()
    ensures { (bytes : List ℕ) → LexesOnce bytes }
{}

/// The words that the table of keywords has are those that are no names.
pub fn keywords_are_those_of_names()
    ensures { map (λ entry. entry.0) keyword_kinds ≡ keywords }
{}
