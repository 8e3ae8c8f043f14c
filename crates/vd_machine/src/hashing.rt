//! The digest of a nonce and a value.

ghost use Rattle.std.specs.Prelude.{◌≡◌, ◌++◌, ◌∷◌, [], ◌<◌, slice_index};
ghost use Rattle.vd_execution.specs.Registers.{digest_of, bytes_of_words, words_from};
ghost use Rattle.sha2.specs.Sha256.{sha256, word_at};

use sha2::{Digest, Sha256};

/// The word of a register; past the end of the list 0.
fn word_in(registers: &[u32], register: usize) -> u32
    ensures { result ≡ slice_index registers.now register }
{
    registers.get(register).copied().unwrap_or(0)
}

/// The digest of eight registers' words and one more's.
#[tactic(auto, using(crate::proofs::Digests::one_more, crate::proofs::Digests::and_last))]
fn bytes_of_digest(registers: &[u32], nonce: u32, value: u32) -> [u8; 32]
    ensures { result ≡ sha256 (bytes_of_words (words_from (slice_index registers.now) nonce 8 ++ slice_index registers.now value ∷ [])) }
{
    let mut hasher = Sha256::new();
    'words: for i in 0..8 {
        hasher.update(word_in(registers, nonce as usize + i).to_be_bytes());
    }
    hasher.update(word_in(registers, value as usize).to_be_bytes());
    hasher.finalize()
}

fn word_of(bytes: &[u8; 32], i: usize) -> u32
    requires { i < 29 }
    ensures { result ≡ word_at bytes.now i }
{
    u32::from_be_bytes([bytes[i], bytes[i + 1], bytes[i + 2], bytes[i + 3]])
}

/// The eight words of the digest of eight registers' words and one more's.
#[tactic(auto, using(crate::proofs::Digests::digest_is))]
pub fn digest(registers: &[u32], nonce: u32, value: u32) -> [u32; 8]
    ensures { result ≡ digest_of (words_from (slice_index registers.now) nonce 8) (slice_index registers.now value) }
{
    let bytes = bytes_of_digest(registers, nonce, value);
    [
        word_of(&bytes, 0),
        word_of(&bytes, 4),
        word_of(&bytes, 8),
        word_of(&bytes, 12),
        word_of(&bytes, 16),
        word_of(&bytes, 20),
        word_of(&bytes, 24),
        word_of(&bytes, 28),
    ]
}
