//! Bytes as a terminal shows them.

ghost use Rattle.std.specs.Prelude.{◌≡◌, IfOk};
ghost use Rattle.std.specs.String.{string_bytes};
ghost use Rattle.vd_diag.specs.Shown as shown;

use std::alloc::{AllocError, Global};
use vd_base::Bytes;

/// Whether a byte is a control character of ASCII.
fn is_control(byte: u8) -> bool
    ensures { result ≡ shown.is_control byte }
{
    byte < 32 || byte == 127
}

/// Whether a byte and those behind it begin with a control character from U+0080 to U+009F.
fn begins_control(byte: u8, behind: &[u8]) -> bool
    ensures { result ≡ shown.begins_control byte behind.now }
{
    match behind.first() {
        Some(next) => byte == 194 && *next < 160,
        None => false,
    }
}

/// Blanks in the place of control characters.
fn visible(alloc: Global, bytes: &[u8]) -> Result<Bytes, AllocError>
    ensures { IfOk result (λ text. text ≡ shown.visible bytes.now) }
{
    let mut text = Bytes::new(alloc);
    for (place, byte) in bytes.iter().enumerate() {
        if is_control(*byte) || begins_control(*byte, &bytes[place + 1..]) {
            text.push(b' ')?;
        } else {
            text.push(*byte)?;
        }
    }
    Ok(text)
}

/// The bytes as text: a blank for each control character, and U+FFFD for what is no UTF-8.
pub(crate) fn shown(alloc: Global, bytes: &[u8]) -> Result<String, AllocError>
    ensures { IfOk result (λ text. string_bytes text ≡ shown.shown bytes.now) }
{
    let text = visible(alloc, bytes)?;
    String::from_utf8_lossy(alloc, text.as_slice())
}
