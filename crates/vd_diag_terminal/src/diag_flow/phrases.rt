//! Parts of sentences on formulas.

ghost use Rattle.std.specs.Prelude.{◌≡◌, IfOk};
ghost use Rattle.vd_diag_terminal.specs.Phrases as phrases;

use std::alloc::{AllocError, Global};
use vd_base::Bytes;
use vd_diag::three;

/// What a formula of this text does, by whether it has one name or more.
fn guard_word(text: &[u8]) -> &'static [u8]
    ensures { result.now ≡ phrases.guard_word text.now }
{
    if text.contains(&b' ') {
        b" guard"
    } else {
        b" guards"
    }
}

/// What has the confidentiality of this text.
pub(crate) fn guarded(alloc: Global, text: &[u8]) -> Result<Bytes, AllocError>
    ensures { IfOk result (λ phrase. phrase ≡ phrases.guarded text.now) }
{
    if text == b"none".as_slice() {
        Bytes::from_slice(alloc, b"what no one may read")
    } else {
        three(alloc, b"what ", text, guard_word(text))
    }
}

/// What is asked to have the integrity of this text.
pub(crate) fn vouched(alloc: Global, text: &[u8]) -> Result<Bytes, AllocError>
    ensures { IfOk result (λ phrase. phrase ≡ phrases.vouched text.now) }
{
    if text == b"none".as_slice() {
        Bytes::from_slice(alloc, b"what no one can answer for")
    } else {
        three(alloc, b"what ", text, b" must answer for")
    }
}
