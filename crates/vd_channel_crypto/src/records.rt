//! Records: bytes under a stream, and a code over their number, their length and themselves.

ghost use Rattle.std.specs.Prelude.{◌≡◌, ◌≢◌, ◌≤◌, length, take, MatchOption};
ghost use Rattle.vd_channel_crypto.specs.Streams.{key_stream, under};
ghost use Rattle.vd_channel_crypto.specs.Records.{record_code};
ghost use Rattle.vd_channel_crypto.specs.Keys.{direction};

use crate::codes::{hmac, same};
use crate::streams::{cover, key_stream};

/// The keys of one direction of a link: one covers the bytes of its records, the other makes their codes.
#[derive(Drop)]
pub struct Keys {
    pub cipher: [u8; 32],
    pub code: [u8; 32],
}

/// The most bytes that a record carries.
pub const RECORD_BYTES: usize = 128;

/// The code of a record.
pub(crate) fn code_of(keys: &Keys, number: u64, covered: &[u8]) -> [u8; 32]
    requires { length covered.now ≤ 128 }
    ensures { result ≡ record_code (direction keys.now) number covered.now }
{
    let head = [0x58, covered.len() as u8];
    hmac(&keys.code, &number.to_be_bytes(), &head, covered)
}

/// The bytes of a record, at the front of what is answered, if its code is that of this number.
pub fn open(keys: &Keys, number: u64, covered: &[u8], code: &[u8; 32]) -> Option<[u8; 128]>
    requires { length covered.now ≤ 128 }
    ensures { MatchOption result
        (code.now ≢ record_code (direction keys.now) number covered.now)
        (λ bytes. (code.now ≡ record_code (direction keys.now) number covered.now)
        × (take (length covered.now) bytes ≡ under covered.now (key_stream keys.now.cipher number))) }
{
    if same(&code_of(keys, number, covered), code) {
        Some(cover(covered, &key_stream(&keys.cipher, number)))
    } else {
        None
    }
}
