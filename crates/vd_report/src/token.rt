//! The tokens of inputs and schedules.

ghost use Rattle.std.specs.Prelude.{◌≡◌, ◌+◌, ◌<◌, ◌≤◌, ◌∷◌, length};
ghost use Rattle.std.specs.List.{prefix_len};
ghost use Rattle.vd_base.specs.Lexical as lexical;
ghost use Rattle.vd_report.specs.Tokens as tokens;

use vd_base::{digits_len, is_digit, is_keyword, is_letter, is_space, number, word_len};

/// What a token is.
#[derive(Clone, Copy)]
pub(crate) enum TokenKind {
    /// The end of the file.
    End,
    /// A NAME of the source language.
    Name,
    /// The keyword `all`.
    All,
    /// A `:`.
    Colon,
    /// A decimal number of at most 32 bits.
    Number(u32),
    /// Any other keyword, digits that are no such number, or a byte that starts no token.
    Other,
}

/// A token and the offsets where it starts and ends.
#[derive(Clone, Copy)]
pub(crate) struct Token {
    /// What it is.
    pub kind: TokenKind,
    /// The offset of its first byte.
    pub start: usize,
    /// The offset behind its last byte.
    pub end: usize,
}

/// The first token that stands at an offset or behind it.
pub(crate) fn next_token(bytes: &[u8], at: usize) -> Token
    requires { at ≤ length bytes.now }
    ensures first { tokens.tokens_at bytes.now at ≡ result ∷ tokens.behind bytes.now result }
    ensures within { tokens.IsToken at result (length bytes.now) }
{
    let start = at + blank_len(&bytes[at..]);
    if start == bytes.len() {
        return Token {
            kind: TokenKind::End,
            start,
            end: start,
        };
    }
    let (kind, len) = first_token(&bytes[start..]);
    Token {
        kind,
        start,
        end: start + len,
    }
}

/// How many bytes of white space a text begins with.
fn blank_len(text: &[u8]) -> usize
    ensures { result ≡ prefix_len lexical.is_space text.now }
{
    text.iter().take_while(|byte| is_space(**byte)).count()
}

/// What the token is with which a text begins, and how many bytes it has.
fn first_token(text: &[u8]) -> (TokenKind, usize)
    requires { 0 < length text.now }
    ensures kind { result.0 ≡ tokens.token_kind text.now }
    ensures len { result.1 ≡ tokens.token_len text.now }
{
    let first = text[0];
    if is_letter(first) {
        let len = word_len(text);
        (word_kind(&text[..len]), len)
    } else if is_digit(first) {
        let len = digits_len(text);
        (digits_kind(&text[..len]), len)
    } else if first == b':' {
        (TokenKind::Colon, 1)
    } else {
        (TokenKind::Other, 1)
    }
}

/// What a word is.
fn word_kind(word: &[u8]) -> TokenKind
    ensures { result ≡ tokens.word_kind word.now }
{
    if word == b"all".as_slice() {
        TokenKind::All
    } else if is_keyword(word) {
        TokenKind::Other
    } else {
        TokenKind::Name
    }
}

/// What a run of digits is.
fn digits_kind(digits: &[u8]) -> TokenKind
    ensures { result ≡ tokens.number_kind (lexical.number_of digits.now) }
{
    match number(digits) {
        Some(value) => TokenKind::Number(value),
        None => TokenKind::Other,
    }
}
