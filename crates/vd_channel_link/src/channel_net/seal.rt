//! What a host seals its links by.

ghost use Rattle.std.specs.Prelude.{◌≡◌, ◌<◌, ◌+◌, IfSome, IfNone};
ghost use Rattle.vd_channel_crypto.specs.Hellos.{nonce_of};
ghost use Rattle.vd_channel_link.specs.Seals.{IsKeyFor, IsKeyless, Tries, awaited_at, first_of, next_asked, sealed_by};

use vd_base::HostId;
use vd_channel_crypto::{Hello, LinkKey, Secrets, nonce};

/// What a host seals its links by: its number, what it knows of its dealing, and 32 bytes that were drawn for this run, by which each
/// connection has a nonce of its own.
#[derive(Drop)]
pub struct Seal {
    me: HostId,
    secrets: Secrets,
    seed: [u8; 32],
    /// The first listener that was given, where one was.
    first: Option<u32>,
    /// How many connections were tried.
    tried: u32,
    /// How many links to earlier hosts were asked for.
    connected: u8,
}

impl Seal {
    /// Nothing was tried so far.
    pub fn new(me: HostId, secrets: Secrets, seed: [u8; 32]) -> Seal
        ensures { result ≡ sealed_by me secrets seed }
    {
        Seal {
            me,
            secrets,
            seed,
            first: None,
            tried: 0,
            connected: 0,
        }
    }

    /// The host that is awaited at a listener: the later hosts have one each, in their order.
    pub(crate) fn awaited_at(&self, listener: u32) -> HostId
        ensures { result.0 ≡ awaited_at self.now listener }
    {
        let place = listener
            .saturating_sub(self.first.unwrap_or(listener))
            .min(255) as u8;
        HostId(self.me.0.saturating_add(1).saturating_add(place))
    }

    /// Notes that a listener was given.
    pub fn listened(&mut self, listener: u32)
        ensures { self.new ≡ record self.old { first = first_of self.old.first listener } }
    {
        if self.first.is_none() {
            self.first = Some(listener);
        }
    }

    /// The next earlier host, to which a link is asked for.
    pub(crate) fn next_earlier(&mut self) -> HostId
        ensures next { result.0 ≡ self.old.connected }
        ensures counted { self.new ≡ next_asked self.old }
    {
        let peer = HostId(self.connected);
        self.connected = self.connected.saturating_add(1);
        peer
    }

    /// The key of the link to a host, if it is a host of the dealing.
    pub(crate) fn key_of(&self, peer: HostId) -> Option<[u8; 32]>
        ensures key { IfSome result (IsKeyFor self.now.me.0 self.now.secrets peer.0) }
        ensures none { IfNone result (IsKeyless self.now peer.0) }
    {
        let place = if peer.0 < self.me.0 {
            usize::from(peer.0)
        } else {
            usize::from(peer.0).saturating_sub(1)
        };
        let LinkKey(key) = *self.secrets.links.as_slice().get(place)?;
        Some(key)
    }

    /// The own number.
    pub(crate) fn me(&self) -> HostId
        ensures { result ≡ self.now.me }
    {
        self.me
    }

    /// The name of the dealing.
    pub(crate) fn id(&self) -> [u8; 32]
        ensures { result ≡ self.now.secrets.id }
    {
        self.secrets.id
    }

    /// How many connections were tried.
    pub(crate) fn tried(&self) -> u32
        ensures { result ≡ self.now.tried }
    {
        self.tried
    }

    /// The hello of the next connection, to this host.
    pub(crate) fn next_hello(&mut self, peer: HostId) -> Hello
        requires { self.old.tried < u32.MAX }
        ensures id { result.id ≡ self.old.secrets.id }
        ensures from { result.from ≡ self.old.me }
        ensures to { result.to ≡ peer }
        ensures nonce { result.nonce ≡ nonce_of self.old.seed peer.0 self.old.tried }
        ensures counted { self.new ≡ record self.old { tried = self.old.tried + 1 } }
        ensures tries { Tries self.old self.new }
    {
        let number = self.tried;
        self.tried = number + 1;
        let seed = self.seed;
        Hello {
            id: self.secrets.id,
            from: self.me,
            to: peer,
            nonce: nonce(&seed, peer, number),
        }
    }
}
