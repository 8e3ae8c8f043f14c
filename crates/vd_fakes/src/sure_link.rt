ghost use Rattle.std.specs.Prelude.{◌≡◌, [], true, false, Ok, IfOk, length, min, take, drop, ◌++◌, ◌-◌, ◌^◌, ◌<◌};
ghost use Rattle.vd_outside.specs.Recorded.{kept};
ghost use Rattle.vd_outside.specs.Link.{Sends, Receives};
ghost use Rattle.vd_fakes.specs.SureLink.{after_receive, fresh_link, link_view, piece_after, share_into};

use std::alloc::{AllocError, Global};
use std::marker::Model;
use vd_base::{Bytes, Failed};
use vd_outside::{Link, Recorder};

/// A link in memory that takes and gives all and never fails. It tells its bytes while those that were sent fit its room.
#[derive(Drop)]
pub struct SureLink {
    incoming: Bytes,
    cursor: usize,
    ended: bool,
    recorder: Recorder,
}

impl Model for SureLink {
    ghost use Rattle.std.specs.Prelude.{◌≤◌, IsTrue, drop, length};
    ghost use Rattle.vd_fakes.specs.SureLink.{SureLinkState};

    ghost Value = { SureLinkState };

    ghost view = { λ link. record { coming = drop link.cursor link.incoming; ended = link.ended; sent = link.recorder } };

    ghost invariant = { λ link. (link.cursor ≤ length link.incoming) × (IsTrue link.ended → length link.incoming ≤ link.cursor) };
}

impl SureLink {
    /// A link on which these bytes will come, with room for so many bytes that are sent.
    pub fn new(alloc: Global, incoming: Bytes, room: usize) -> Result<SureLink, AllocError>
        ensures { IfOk result (λ link. link ≡ fresh_link incoming room) }
    {
        let recorder = Recorder::new(alloc, room)?;
        Ok(SureLink {
            incoming,
            cursor: 0,
            ended: false,
            recorder,
        })
    }

    /// The bytes that were sent and kept.
    pub fn bytes(&self) -> &[u8]
        ensures { result.now ≡ self.now.sent.bytes }
    {
        self.recorder.bytes()
    }

    /// Whether the bytes are all that were sent.
    pub fn tells(&self) -> bool
        ensures { result ≡ self.now.sent.told }
    {
        self.recorder.tells()
    }
}

impl Link for SureLink {
    ghost view = { link_view };

    fn faults(&self) -> u64 {
        0
    }

    fn send(&mut self, bytes: &[u8]) -> Result<u32, Failed>
        requires { 0 < length bytes.now }
        ensures send { Sends bytes.now (link_view self.old) (link_view self.new) result }
        ensures all { result ≡ Ok (min (length bytes.now) (2 ^ 32 - 1)) }
        ensures state { self.new ≡ record self.old { sent = kept self.old.sent (take (min (length bytes.now) (2 ^ 32 - 1)) bytes.now) } }
    {
        let count = bytes.len().min(u32::MAX as usize);
        self.recorder.keep(&bytes[..count]);
        Ok(count as u32)
    }

    fn receive(&mut self, into: &mut [u8]) -> Result<u32, Failed>
        requires { 0 < length into.old }
        ensures receive { Receives into.new (link_view self.old) (link_view self.new) result }
        ensures all { result ≡ Ok (share_into self.old (length into.old)) }
        ensures piece { into.new ≡ piece_after self.old into.old }
        ensures state { self.new ≡ after_receive self.old (length into.old) }
    {
        let coming = &self.incoming.as_slice()[self.cursor..];
        let count = coming.len().min(into.len()).min(u32::MAX as usize);
        into[..count].copy_from_slice(&coming[..count]);
        self.cursor += count;
        self.ended = count == 0;
        Ok(count as u32)
    }
}
