//! A text with tokens of given kinds.

ghost use Rattle.std.specs.Prelude.{◌≡◌, IfOk};
ghost use Rattle.vd_source_lexer.specs.Spelled as spelling;

use crate::TokenKind;
use crate::source_spelling::texts::text_of;
use std::alloc::{AllocError, Global};
use vd_base::Bytes;

/// The text of a token of each of these kinds, with a blank behind it.
fn spelled(alloc: Global, kinds: &[TokenKind]) -> Result<Bytes, AllocError>
    ensures { IfOk result (λ text. text ≡ spelling.spelled kinds.now) }
{
    let mut text = Bytes::new(alloc);
    for kind in kinds {
        text.extend_from_slice(text_of(*kind).as_bytes())?;
        text.push(b' ')?;
    }
    Ok(text)
}

/// A text whose tokens have these kinds, of which none is the end.
pub fn spell(alloc: Global, kinds: &[TokenKind]) -> Result<Bytes, AllocError>
    requires { spelling.HasNoEnd kinds.now }
    ensures spelled { IfOk result (λ text. text ≡ spelling.spelled kinds.now) }
    ensures kinds { IfOk result (λ text. spelling.HasKinds text kinds.now) }
{
    let text = spelled(alloc, kinds)?;
    Ok(text)
}
