//! What a host knows of its dealing besides its items.

ghost use Rattle.std.specs.Prelude.{◌≡◌, ◌<◌, IfOk};
ghost use Rattle.vd_tape.specs.Validity.{peer_at};
ghost use Rattle.vd_channel_crypto.specs.DealKeysKeys.{link_between};
ghost use Rattle.vd_channel_crypto.specs.Secrets.{secrets_of};

use crate::deal_keys::keys::{dealing_id, link_key};
use std::alloc::{AllocError, Global};
use vd_base::{HostId, Items};
use vd_tape::Counts;

/// The key of a link, which its two ends have and nobody else. It is never printed.
#[derive(Clone, Copy)]
pub struct LinkKey(pub [u8; 32]);

/// What a host knows of its dealing besides its items. It is never printed, but for the name of the dealing, which all know.
#[derive(Drop)]
pub struct Secrets {
    /// The public name of the dealing.
    pub id: [u8; 32],
    /// For each peer, in their order, the key of the link to it.
    pub links: Items<LinkKey>,
}

impl Secrets {
    /// A copy.
    pub fn copy(&self, alloc: Global) -> Result<Secrets, AllocError>
        ensures { IfOk result (λ secrets. secrets ≡ self.now) }
    {
        let mut links = Items::new(alloc);
        for link in self.links.as_slice() {
            links.push(*link)?;
        }
        Ok(Secrets { id: self.id, links })
    }
}

/// What a host knows of the dealing of a key and these counts.
pub fn secrets_of(
    alloc: Global,
    counts: Counts,
    key: &[u8; 32],
    me: HostId,
) -> Result<Secrets, AllocError>
    requires { 0 < counts.hosts }
    ensures { IfOk result (λ secrets. secrets ≡ secrets_of counts key.now me.0) }
{
    let mut links = Items::new(alloc);
    for place in 0..counts.hosts - 1 {
        links.push(link_to(counts, key, me.0, place))?;
    }
    Ok(Secrets {
        id: dealing_id(counts, key),
        links,
    })
}

/// The key of the link to the peer at a place.
fn link_to(counts: Counts, key: &[u8; 32], me: u8, place: u8) -> LinkKey
    requires { place < 255 }
    ensures { result ≡ link_between counts key.now me (peer_at me place) }
{
    let peer = peer_at(me, place);
    LinkKey(link_key(counts, key, me.min(peer), me.max(peer)))
}

/// The peer at a place.
fn peer_at(me: u8, place: u8) -> u8
    requires { place < 255 }
    ensures { result ≡ peer_at me place }
{
    if place < me { place } else { place + 1 }
}
