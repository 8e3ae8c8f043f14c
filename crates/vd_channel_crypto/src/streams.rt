//! The streams of ChaCha20, and bytes under them.

ghost use Rattle.std.specs.Prelude.{◌≡◌, ◌≤◌, length, take};
ghost use Rattle.vd_channel_crypto.specs.Streams.{key_stream, under};

use rand_chacha::ChaCha20Rng;
use rand_core::{Rng, SeedableRng};

/// The first 128 bytes of the stream of ChaCha20 for one number. The nonce is four zero bytes and the number, the lowest byte first.
#[tactic(auto, unfolding(rand_core::specs::Stream::fill_bytes, rand_core::specs::Steps::stream_of))]
pub fn key_stream(key: &[u8; 32], number: u64) -> [u8; 128]
    ensures { result ≡ key_stream key.now number }
{
    let mut generator = ChaCha20Rng::from_seed(*key);
    generator.set_stream(number);
    let mut stream = [0; 128];
    generator.fill_bytes(&mut stream);
    stream
}

/// The bytes under a stream, at the front of what is answered.
pub(crate) fn cover(bytes: &[u8], stream: &[u8; 128]) -> [u8; 128]
    requires { length bytes.now ≤ 128 }
    ensures { take (length bytes.now) result ≡ under bytes.now stream.now }
{
    let mut covered = [0; 128];
    'bytes: for i in 0..bytes.len() {
        covered[i] = bytes[i] ^ stream[i];
    }
    covered
}
