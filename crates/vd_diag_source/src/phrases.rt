//! Parts of sentences.

ghost use Rattle.std.specs.Prelude.{◌≡◌, ◌++◌, ◌≤◌, IfOk, OnOk, nat_eq};
ghost use Rattle.vd_source_lexer.specs.declared.token.TokenKind.TheVariants as kind;
ghost use Rattle.vd_diag_source.specs.Phrases as phrases;

use std::alloc::{AllocError, Global};
use vd_base::Bytes;
use vd_diag::{three, word_at};
use vd_source_lexer::{Token, TokenKind, text_of};

fn is(kind: TokenKind, other: TokenKind) -> bool
    ensures { result ≡ phrases.is_kind kind other }
{
    kind.code() == other.code()
}

/// What any token of a kind is called.
fn kind_phrase(alloc: Global, kind: TokenKind) -> Result<Bytes, AllocError>
    ensures { IfOk result (λ text. text ≡ phrases.kind_phrase kind) }
{
    if is(kind, TokenKind::End) {
        Bytes::from_slice(alloc, b"the end of the text")
    } else if is(kind, TokenKind::Name) {
        Bytes::from_slice(alloc, b"a name")
    } else if is(kind, TokenKind::Number) {
        Bytes::from_slice(alloc, b"a number")
    } else {
        three(alloc, b"`", text_of(kind).as_bytes(), b"`")
    }
}

/// What a token of a text is called.
pub(crate) fn token_phrase(alloc: Global, bytes: &[u8], token: Token) -> Result<Bytes, AllocError>
    ensures { IfOk result (λ text. text ≡ phrases.token_phrase bytes.now token) }
{
    if is(token.kind, TokenKind::Name) {
        three(alloc, b"the name `", word_at(bytes, token.span), b"`")
    } else if is(token.kind, TokenKind::Number) {
        three(alloc, b"the number `", word_at(bytes, token.span), b"`")
    } else {
        kind_phrase(alloc, token.kind)
    }
}

/// What stands before the part of this place among so many.
fn separator(place: usize, count: usize) -> &'static [u8]
    requires { place ≤ count }
    ensures { result.now ≡ phrases.separator place count }
{
    if place == 0 {
        b""
    } else if place == count - 1 {
        b" or "
    } else {
        b", "
    }
}

/// Puts a kind of this place at the end, behind its separator.
fn push_kind(
    alloc: Global,
    text: &mut Bytes,
    place: usize,
    count: usize,
    kind: TokenKind,
) -> Result<(), AllocError>
    requires { place ≤ count }
    ensures { OnOk result (text.new ≡ text.old ++ (phrases.separator place count ++ phrases.kind_phrase kind)) }
{
    let phrase = kind_phrase(alloc, kind)?;
    text.extend_from_slice(separator(place, count))?;
    text.extend_from_slice(phrase.as_slice())
}

/// The kinds, with commas between them and `or` before the last.
pub(crate) fn kinds_phrase(alloc: Global, kinds: &[TokenKind]) -> Result<Bytes, AllocError>
    ensures { IfOk result (λ text. text ≡ phrases.kinds_phrase kinds.now) }
{
    let mut text = Bytes::new(alloc);
    for (place, kind) in kinds.iter().enumerate() {
        push_kind(alloc, &mut text, place, kinds.len(), *kind)?;
    }
    Ok(text)
}
