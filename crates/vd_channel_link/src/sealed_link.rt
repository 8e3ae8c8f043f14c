//! A link whose bytes go in records.

ghost use Rattle.std.specs.Prelude.{◌≡◌, ◌<◌, IfOk, OnErr, length, nat_lt};
ghost use Rattle.vd_outside.specs.Link.{Receives, Sends};
ghost use Rattle.vd_channel_link.specs.Session.{BeginsNone, FailsToSend, NumberGoesOn, SendsRecord, sealed_view};

use crate::fault::SealFault;
use crate::session::Session;
use std::snapshot::Snapshot;
use vd_base::Failed;
use vd_outside::Link;

/// A link in which each piece goes in a record of its own, over another link. What comes is given only where its record has the code
/// of this direction and place. It tells what the link below tells: not its bytes, but those that its records carry.
#[derive(Drop)]
pub struct SealedLink<L: Link + Drop> {
    pub link: L,
    pub session: Session,
    /// The link below as it was when a record was last begun. It takes no memory.
    before: Snapshot<L>,
}

impl<L: Link + Drop> SealedLink<L> {
    /// Seals a link whose two ends have met.
    pub fn over(link: L, session: Session) -> SealedLink<L>
        ensures link { result.link ≡ link }
        ensures session { result.session ≡ session }
    {
        let before = Snapshot::of(&link);
        SealedLink {
            link,
            session,
            before,
        }
    }

    /// Whether a record behind the first was begun.
    pub fn has_sent(&self) -> bool
        ensures { result ≡ nat_lt 2 self.now.session.next_out }
    {
        self.session.has_sent()
    }

    /// Why nothing is taken any more, if so.
    pub fn fault(&self) -> Option<SealFault>
        ensures { result ≡ self.now.session.fault }
    {
        self.session.fault()
    }

    /// The link below.
    pub fn into_link(self) -> L
        ensures { result ≡ self.link }
    {
        let SealedLink { link, .. } = self;
        link
    }
}

impl<L: Link + Drop> Link for SealedLink<L> {
    ghost view = { λ sealed. sealed_view sealed.session (L.view sealed.before.value).coming (L.view sealed.link) };

    fn faults(&self) -> u64 {
        self.session.faults()
    }

    fn send(&mut self, bytes: &[u8]) -> Result<u32, Failed>
        requires { 0 < length bytes.now }
        ensures sends { Sends bytes.now
            (sealed_view self.old.session (L.view self.old.before.value).coming (L.view self.old.link))
            (sealed_view self.new.session (L.view self.new.before.value).coming (L.view self.new.link)) result }
        ensures out { IfOk result
            (SendsRecord bytes.now self.old.session self.new.session (L.view self.old.link) (L.view self.new.link)) }
        ensures cut { OnErr result
            (FailsToSend bytes.now self.old.session self.new.session (L.view self.old.link) (L.view self.new.link)) }
        ensures number { NumberGoesOn self.old.session self.new.session (L.view self.old.link) (L.view self.new.link) }
    {
        self.session.send(&mut self.link, bytes)
    }

    fn receive(&mut self, into: &mut [u8]) -> Result<u32, Failed>
        requires { 0 < length into.old }
        ensures receives { Receives into.new
            (sealed_view self.old.session (L.view self.old.before.value).coming (L.view self.old.link))
            (sealed_view self.new.session (L.view self.new.before.value).coming (L.view self.new.link)) result }
        ensures none_out { BeginsNone self.old.session self.new.session (L.view self.old.link) (L.view self.new.link) }
    {
        self.session.receive(&mut self.link, &mut self.before, into)
    }
}
