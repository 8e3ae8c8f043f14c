//! Parts of sentences.

ghost use Rattle.std.specs.Prelude.{◌≡◌, IfOk};
ghost use Rattle.vd_diag.specs.Parts as parts;

use std::alloc::{AllocError, Global};
use vd_base::{Bytes, Span};

/// Three parts, one after another.
pub fn three(alloc: Global, first: &[u8], middle: &[u8], last: &[u8]) -> Result<Bytes, AllocError>
    ensures { IfOk result (λ text. text ≡ parts.three first.now middle.now last.now) }
{
    let mut text = Bytes::new(alloc);
    text.extend_from_slice(first)?;
    text.extend_from_slice(middle)?;
    text.extend_from_slice(last)?;
    Ok(text)
}

/// The bytes of a span, as far as there are so many.
#[tactic(auto, using(std::proofs::lemmas::List::take_min, std::proofs::lemmas::List::drop_min))]
pub fn word_at(bytes: &[u8], span: Span) -> &[u8]
    ensures { result.now ≡ parts.word_at bytes.now span }
{
    let start = (span.start as usize).min(bytes.len());
    let rest = &bytes[start..];
    let len = (span.end.saturating_sub(span.start) as usize).min(rest.len());
    &rest[..len]
}
