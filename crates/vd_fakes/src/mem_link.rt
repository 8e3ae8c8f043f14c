ghost use Rattle.std.specs.Prelude.{◌≡◌, ◌↔◌, ◌<◌, IsTrue, IsErr, IfOk, length};
ghost use Rattle.vd_outside.specs.Link.{Sends, Receives};
ghost use Rattle.vd_fakes.specs.MemLink.{after_limited_receive, after_send, fresh_limited_link, limited_link_view, piece_left, share_in, share_out};
ghost use Rattle.vd_fakes.specs.Failing.{fails_next};

use crate::{Failures, SureLink};
use std::alloc::{AllocError, Global};
use std::marker::Model;
use vd_base::{Bytes, Failed, Items};
use vd_outside::Link;

/// A link in memory that takes and gives so many bytes a call at most, though always one, and fails at the calls whose
/// numbers it is given. It tells its bytes while those that were sent fit its room.
#[derive(Drop)]
pub struct MemLink {
    link: SureLink,
    most: u32,
    failures: Failures,
}

impl Model for MemLink {
    ghost use Rattle.vd_fakes.specs.MemLink.{MemLinkState};

    ghost Value = { MemLinkState };

    ghost view = { λ link. record { held = link.link; most = link.most; failures = link.failures } };
}

impl MemLink {
    /// A link on which these bytes will come, with room for so many bytes that are sent. It passes at most `most` bytes a
    /// call, and fails at the calls with these numbers.
    pub fn new(
        alloc: Global,
        incoming: Bytes,
        room: usize,
        most: u32,
        failing: Items<u64>,
    ) -> Result<MemLink, AllocError>
        ensures { IfOk result (λ link. link ≡ fresh_limited_link incoming room most failing) }
    {
        let link = SureLink::new(alloc, incoming, room)?;
        Ok(MemLink {
            link,
            most,
            failures: Failures::new(failing),
        })
    }

    /// The bytes that were sent and kept.
    pub fn bytes(&self) -> &[u8]
        ensures { result.now ≡ self.now.held.sent.bytes }
    {
        self.link.bytes()
    }

    /// Whether the bytes are all that were sent.
    pub fn tells(&self) -> bool
        ensures { result ≡ self.now.held.sent.told }
    {
        self.link.tells()
    }
}

impl Link for MemLink {
    ghost view = { limited_link_view };

    fn faults(&self) -> u64 {
        self.failures.faults
    }

    fn send(&mut self, bytes: &[u8]) -> Result<u32, Failed>
        requires { 0 < length bytes.now }
        ensures send { Sends bytes.now (limited_link_view self.old) (limited_link_view self.new) result }
        ensures fails { IsErr result ↔ IsTrue (fails_next self.old.failures) }
        ensures count { IfOk result (λ count. count ≡ share_out self.old (length bytes.now)) }
        ensures state { self.new ≡ after_send self.old bytes.now }
    {
        if self.failures.next_fails() {
            self.failures.count_fault();
            return Err(Failed);
        }
        let count = bytes.len().min(self.most.max(1) as usize);
        self.link.send(&bytes[..count])
    }

    fn receive(&mut self, into: &mut [u8]) -> Result<u32, Failed>
        requires { 0 < length into.old }
        ensures receive { Receives into.new (limited_link_view self.old) (limited_link_view self.new) result }
        ensures fails { IsErr result ↔ IsTrue (fails_next self.old.failures) }
        ensures count { IfOk result (λ count. count ≡ share_in self.old (length into.old)) }
        ensures piece { into.new ≡ piece_left self.old into.old }
        ensures state { self.new ≡ after_limited_receive self.old (length into.old) }
    {
        if self.failures.next_fails() {
            self.failures.count_fault();
            return Err(Failed);
        }
        let most = into.len().min(self.most.max(1) as usize);
        self.link.receive(&mut into[..most])
    }
}
