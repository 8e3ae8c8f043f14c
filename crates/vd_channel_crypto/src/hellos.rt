//! What each end of a sealed link says first, and the keys that both make of it.

ghost use Rattle.std.specs.Prelude.{◌≡◌};
ghost use Rattle.vd_channel_crypto.specs.Keys.{direction};
ghost use Rattle.vd_channel_crypto.specs.Hellos.{link_direction, link_key, nonce_of};

use crate::codes::hmac;
use crate::records::Keys;
use vd_base::HostId;

/// What each end of a sealed link says first.
#[derive(Clone, Copy, PartialEq, Eq)]
pub struct Hello {
    /// The public name of the dealing.
    pub id: [u8; 32],
    /// Who says it.
    pub from: HostId,
    /// To whom.
    pub to: HostId,
    /// Bytes that its sender draws for this connection alone.
    pub nonce: [u8; 32],
}

/// The nonce of a connection to a host, by its number among those of this run. The seed is drawn once for the run.
pub fn nonce(seed: &[u8; 32], peer: HostId, connection: u32) -> [u8; 32]
    ensures { result ≡ nonce_of seed.now peer.0 connection }
{
    hmac(seed, b"nonce", &[peer.0], &connection.to_be_bytes())
}

/// The keys of the direction in which this host sends, by the key of the link and the digest of both hellos.
pub(crate) fn link_keys(link: &[u8; 32], sender: HostId, digest: &[u8; 32]) -> Keys
    ensures { direction result ≡ link_direction link.now sender.0 digest.now }
{
    Keys {
        cipher: link_key(link, b'c', sender, digest),
        code: link_key(link, b'm', sender, digest),
    }
}

/// The key of a direction for one purpose.
fn link_key(link: &[u8; 32], purpose: u8, sender: HostId, digest: &[u8; 32]) -> [u8; 32]
    ensures { result ≡ link_key link.now purpose sender.0 digest.now }
{
    let mut rest = [1; 33];
    rest[..32].copy_from_slice(digest);
    hmac(link, b"viaduct link 2", &[purpose, sender.0], &rest)
}
