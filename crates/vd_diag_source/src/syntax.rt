//! Sentences on faults of a source's text.

ghost use Rattle.std.specs.Prelude.{◌≡◌, IfOk};
ghost use Rattle.vd_diag_source.specs.Syntax as syntax;

use crate::phrases::{kinds_phrase, token_phrase};
use itoa::Buffer;
use std::alloc::{AllocError, Global};
use vd_base::{Bytes, is_digit};
use vd_diag::three;
use vd_source_lexer::{Token, TokenKind};

/// The sentence on a token that cannot stand where it stands, and the kinds that can.
pub(crate) fn unexpected_sentence(
    alloc: Global,
    bytes: &[u8],
    token: Token,
    kinds: &[TokenKind],
) -> Result<Bytes, AllocError>
    ensures { IfOk result (λ text. text ≡ syntax.unexpected_sentence bytes.now token kinds.now) }
{
    let token = token_phrase(alloc, bytes, token)?;
    let kinds = kinds_phrase(alloc, kinds)?;
    let found = three(alloc, b"found ", token.as_slice(), b", where only ")?;
    three(alloc, found.as_slice(), kinds.as_slice(), b" can stand")
}

/// The same where the kinds that can are not known.
pub(crate) fn refused_sentence(
    alloc: Global,
    bytes: &[u8],
    token: Token,
) -> Result<Bytes, AllocError>
    ensures { IfOk result (λ text. text ≡ syntax.refused_sentence bytes.now token) }
{
    let token = token_phrase(alloc, bytes, token)?;
    three(
        alloc,
        b"found ",
        token.as_slice(),
        b", which cannot stand here",
    )
}

/// The sentence on a byte that begins nothing of a source.
pub(crate) fn bad_byte_sentence(alloc: Global, byte: u8) -> Result<Bytes, AllocError>
    ensures { IfOk result (λ text. text ≡ syntax.bad_byte_sentence byte) }
{
    if is_digit(byte) {
        Bytes::from_slice(
            alloc,
            b"a number is `0`, or begins with another digit, and is at most 4294967295",
        )
    } else {
        Bytes::from_slice(alloc, b"nothing of a source begins with this byte")
    }
}

/// The sentence on a bracket that would be one too many.
#[tactic(auto, unfolding(crate::specs::Syntax::nesting_sentence))]
pub(crate) fn nesting_sentence(alloc: Global) -> Result<Bytes, AllocError>
    ensures { IfOk result (λ text. text ≡ syntax.nesting_sentence) }
{
    Bytes::from_slice(
        alloc,
        b"this bracket would be the 65th that is open at once, and at most 64 may be",
    )
}

/// The sentence on a source of too many bytes.
pub(crate) fn long_sentence(alloc: Global, len: u64) -> Result<Bytes, AllocError>
    ensures { IfOk result (λ text. text ≡ syntax.long_sentence len) }
{
    let mut buffer = Buffer::new();
    let len = buffer.format(len).as_bytes();
    three(
        alloc,
        b"the file has ",
        len,
        b" bytes, and a source has at most 65536",
    )
}
