ghost use Rattle.std.specs.Prelude.{◌≡◌, ◌<◌, ◌≤◌, ◌+◌, ◌*◌, true, false, length, Ok, Err, IfOk, IfErr, OnOk, OnErr};
ghost use Rattle.vd_base.specs.Limits.{most_packet_words};
ghost use Rattle.vd_base.specs.Packets.{packet_words};
ghost use Rattle.vd_link.specs.Frames.{frame};
ghost use Rattle.vd_link.specs.Sessions.{Greets, Takes, offset_after};
ghost use Rattle.vd_link.specs.States.{ends, ends_of, has_failed, link_of, offset_of};
ghost use Rattle.vd_outside.specs.Link.{SendsAll};

use crate::frame::Frame;
use crate::greeting::exchange_greetings;
use crate::taking::take_packet;
use crate::{Digest, GreetFault, LinkFault};
use std::alloc::{AllocError, Global};
use vd_base::{Failed, HostId, Packet};
use vd_outside::{Link, send_all};

/// A session that has not begun.
#[derive(Drop)]
pub struct Fresh;

/// A session that may send and receive packets until it answers a fault.
#[derive(Drop)]
pub struct Greeted {
    received: u64,
    failed: bool,
}

/// A session that only gives its link back.
#[derive(Drop)]
pub struct Closed;

/// What a host has to do with another over a link.
#[derive(Drop)]
pub struct Session<L: Link + Drop, S: Drop> {
    link: L,
    frame: Frame,
    me: HostId,
    peer: HostId,
    plan: Digest,
    state: S,
}

impl<L: Link + Drop> Session<L, Fresh> {
    /// A session of this host with another over a link, by a plan with this digest. The link comes back where there is no
    /// memory.
    pub fn new(
        alloc: Global,
        link: L,
        me: HostId,
        peer: HostId,
        plan: Digest,
    ) -> Result<Session<L, Fresh>, (L, AllocError)>
        ensures ok { IfOk result (λ session. (link_of session ≡ link) × (ends_of session ≡ ends me peer plan)) }
        ensures err { IfErr result (λ refused. refused.0 ≡ link) }
    {
        match Frame::new(alloc) {
            Ok(frame) => Ok(Session {
                link,
                frame,
                me,
                peer,
                plan,
                state: Fresh,
            }),
            Err(fault) => Err((link, fault)),
        }
    }

    /// Greets the peer. After a fault the session is closed.
    pub fn greet(self) -> Result<Session<L, Greeted>, (Session<L, Closed>, GreetFault)>
        ensures ok { IfOk result (λ session. Greets (ends_of self) (L.view (link_of self)) (L.view (link_of session)) (Ok tt)) }
        ensures err { IfErr result (λ refused. Greets (ends_of self) (L.view (link_of self)) (L.view (link_of refused.0)) (Err refused.1)) }
        ensures begins { IfOk result (λ session. (offset_of session ≡ 36) × (has_failed session ≡ false)) }
        ensures same { IfOk result (λ session. ends_of session ≡ ends_of self) }
    {
        let Session {
            mut link,
            mut frame,
            me,
            peer,
            plan,
            state: _,
        } = self;
        match exchange_greetings(&mut link, &mut frame, me, peer, &plan) {
            Ok(()) => Ok(Session {
                link,
                frame,
                me,
                peer,
                plan,
                state: Greeted {
                    received: 36,
                    failed: false,
                },
            }),
            Err(fault) => Err((
                Session {
                    link,
                    frame,
                    me,
                    peer,
                    plan,
                    state: Closed,
                },
                fault,
            )),
        }
    }
}

impl<L: Link + Drop> Session<L, Greeted> {
    /// Sends a packet. After a fault the session may only be closed.
    pub fn send(&mut self, packet: &Packet) -> Result<(), Failed>
        requires sound { has_failed self.old ≡ false }
        requires some { 0 < length (packet_words packet.now) }
        ensures sends { SendsAll (frame (packet_words packet.now)) (L.view (link_of self.old)) (L.view (link_of self.new)) result }
        ensures ok { OnOk result ((offset_of self.new ≡ offset_of self.old) × (has_failed self.new ≡ false)) }
        ensures err { OnErr result (has_failed self.new ≡ true) }
        ensures same { ends_of self.new ≡ ends_of self.old }
    {
        self.frame.set_packet(packet);
        match send_all(&mut self.link, self.frame.as_slice()) {
            Ok(()) => Ok(()),
            Err(fault) => {
                self.state.failed = true;
                Err(fault)
            }
        }
    }

    /// Receives a packet of so many words. After a fault the session may only be closed.
    pub fn receive(&mut self, count: u8) -> Result<Packet, LinkFault>
        requires sound { has_failed self.old ≡ false }
        requires some { 1 ≤ count }
        requires most { count ≤ most_packet_words }
        ensures takes { Takes count (offset_of self.old) (L.view (link_of self.old)) (L.view (link_of self.new)) result }
        ensures ok { OnOk result ((offset_of self.new ≡ offset_after (offset_of self.old) (2 + 4 * count)) ×
            (has_failed self.new ≡ false)) }
        ensures err { OnErr result (has_failed self.new ≡ true) }
        ensures same { ends_of self.new ≡ ends_of self.old }
    {
        match take_packet(&mut self.link, count, self.state.received) {
            Ok(packet) => {
                self.state.received = self.state.received.saturating_add(2 + 4 * u64::from(count));
                Ok(packet)
            }
            Err(fault) => {
                self.state.failed = true;
                Err(fault)
            }
        }
    }

    /// Ends the session.
    pub fn close(self) -> Session<L, Closed>
        ensures link { link_of result ≡ link_of self }
        ensures same { ends_of result ≡ ends_of self }
    {
        let Session {
            link,
            frame,
            me,
            peer,
            plan,
            state: _,
        } = self;
        Session {
            link,
            frame,
            me,
            peer,
            plan,
            state: Closed,
        }
    }
}

impl<L: Link + Drop> Session<L, Closed> {
    /// The link.
    pub fn link(self) -> L
        ensures { result ≡ link_of self }
    {
        let Session {
            link,
            frame: _,
            me: _,
            peer: _,
            plan: _,
            state: _,
        } = self;
        link
    }
}
