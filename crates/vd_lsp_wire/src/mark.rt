//! What an editor marks of a fault.

ghost use Rattle.std.specs.Prelude.{◌≡◌, ◌≤◌, length, drop};
ghost use Rattle.std.specs.List.{prefix_len};
ghost use Rattle.vd_lsp_wire.specs.Marks as marks;
ghost use Rattle.vd_lsp_wire.specs.Places.{goes_on};

use vd_base::word_len;

/// How many bytes at the front are within the character that begins before them.
#[tactic(auto, using(crate::proofs::Bounds::prefix_within))]
fn inner_len(bytes: &[u8]) -> usize
    ensures len { result ≡ prefix_len goes_on bytes.now }
    ensures within { result ≤ length bytes.now }
{
    bytes
        .iter()
        .take_while(|byte| **byte >= 128 && **byte < 192)
        .count()
}

/// How many bytes the first character of a text has.
fn character_len(bytes: &[u8]) -> usize
    ensures len { result ≡ marks.character_len bytes.now }
    ensures within { result ≤ length bytes.now }
{
    match bytes {
        [] => 0,
        [_first, rest @ ..] => inner_len(rest) + 1,
    }
}

/// How many bytes are marked of a text: its first word, or else its first character.
#[tactic(auto, using(crate::proofs::Bounds::prefix_within))]
fn mark_len(bytes: &[u8]) -> usize
    ensures len { result ≡ marks.mark_len bytes.now }
    ensures within { result ≤ length bytes.now }
{
    match word_len(bytes) {
        0 => character_len(bytes),
        len => len,
    }
}

/// The bytes from an offset on.
fn rest(bytes: &[u8], offset: usize) -> &[u8]
    ensures { result.now ≡ drop offset bytes.now }
{
    &bytes[offset.min(bytes.len())..]
}

/// Where the mark of a fault at this offset ends: behind the word that begins there, or else behind the character. At the end of
/// the text the mark is empty.
pub fn mark_end(bytes: &[u8], offset: u32) -> usize
    ensures { result ≡ marks.mark_end bytes.now offset }
{
    offset as usize + mark_len(rest(bytes, offset as usize))
}
