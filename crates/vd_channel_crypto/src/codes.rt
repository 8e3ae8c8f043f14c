//! Authentication codes, and keys that are made of keys.

ghost use Rattle.std.specs.Prelude.{◌≡◌, ◌≤◌, ◌++◌, ◌↔◌, IsTrue, length, map, bit_xor};
ghost use Rattle.vd_channel_crypto.specs.Codes.{block_of, derived, hmac, padded};

use sha2::{Digest, Sha256};

/// A key, followed by zeros up to a block.
fn filled(key: &[u8]) -> [u8; 64]
    requires { length key.now ≤ 64 }
    ensures { result ≡ block_of key.now }
{
    let mut block = [0; 64];
    block[..key.len()].copy_from_slice(key);
    block
}

/// A block, each of its bytes with exclusive or under a pad.
fn padded(block: &[u8; 64], pad: u8) -> [u8; 64]
    ensures { result ≡ map (λ b. bit_xor b pad) block.now }
{
    let mut bytes = [0; 64];
    'bytes: for i in 0..64 {
        bytes[i] = block[i] ^ pad;
    }
    bytes
}

/// The HMAC-SHA256 of a message in three pieces, under a key of at most a block.
pub fn hmac(key: &[u8], first: &[u8], second: &[u8], third: &[u8]) -> [u8; 32]
    requires { length key.now ≤ 64 }
    ensures { result ≡ hmac key.now (first.now ++ (second.now ++ third.now)) }
{
    let block = filled(key);
    let mut inner = Sha256::new();
    inner.update(padded(&block, 0x36));
    inner.update(first);
    inner.update(second);
    inner.update(third);
    let digest = inner.finalize();
    let mut outer = Sha256::new();
    outer.update(padded(&block, 0x5c));
    outer.update(digest);
    outer.finalize()
}

/// The key of 32 bytes that HKDF-SHA256 makes of an input, for a purpose that is told in two pieces.
pub fn derive(salt: &[u8], input: &[u8], purpose: &[u8], more: &[u8]) -> [u8; 32]
    requires { length salt.now ≤ 64 }
    ensures { result ≡ derived salt.now input.now (purpose.now ++ more.now) }
{
    let extracted = hmac(salt, input, &[], &[]);
    hmac(&extracted, purpose, more, &[1])
}

/// Whether two codes are the same. All bytes are looked at, whatever they are.
pub(crate) fn same(left: &[u8; 32], right: &[u8; 32]) -> bool
    ensures { IsTrue result ↔ (left.now ≡ right.now) }
{
    let mut equal = true;
    'bytes: for i in 0..32 {
        equal &= left[i] == right[i];
    }
    equal
}
