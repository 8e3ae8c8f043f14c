ghost use Rattle.std.specs.Prelude.{◌≡◌, ◌≤◌, ◌+◌, ◌*◌, [], length, IfOk};
ghost use Rattle.std.specs.List.{flat_map};
ghost use Rattle.std.specs.Int.{w32, to_be_bytes};
ghost use Rattle.vd_base.specs.Limits.{most_packet_words};
ghost use Rattle.vd_base.specs.Packets.{packet_words};
ghost use Rattle.vd_link.specs.Frames.{greeting, frame};

use crate::Digest;
use crate::packet::words_of;
use std::alloc::{AllocError, Global};
use std::marker::Model;
use vd_base::{HostId, Packet};

/// The first byte of a greeting.
pub(crate) const GREETING_TAG: u8 = 0x47;

/// The second byte of a greeting.
pub(crate) const GREETING_VERSION: u8 = 1;

/// The bytes of a greeting.
pub(crate) const GREETING_BYTES: usize = 36;

/// The first byte of a packet.
pub(crate) const PACKET_TAG: u8 = 0x56;

/// The most bytes of a packet.
pub(crate) const PACKET_BYTES: usize = 66;

/// The greeting of a host to another, with the digest of its plan.
pub fn greeting_of(plan: &Digest, from: HostId, to: HostId) -> [u8; GREETING_BYTES]
    ensures { result ≡ greeting plan.now from.0 to.0 }
{
    let mut bytes = [0u8; GREETING_BYTES];
    bytes[0] = GREETING_TAG;
    bytes[1] = GREETING_VERSION;
    bytes[34] = from.0;
    bytes[35] = to.0;
    bytes[2..34].copy_from_slice(plan);
    bytes
}

/// The bytes of a greeting or a packet that goes out, in room that was taken beforehand.
#[derive(Drop)]
pub(crate) struct Frame {
    bytes: Vec<u8>,
}

impl Model for Frame {
    ghost use Rattle.std.specs.Prelude.{◌≤◌, List, ℕ, vec_capacity};

    ghost Value = { List ℕ };

    ghost view = { λ frame. frame.bytes.items };

    ghost invariant = { λ frame. 66 ≤ vec_capacity frame.bytes };
}

impl Frame {
    /// No bytes, with room for those of each greeting and packet.
    pub fn new(alloc: Global) -> Result<Frame, AllocError> {
        let bytes = Vec::with_capacity(alloc, PACKET_BYTES)?;
        Ok(Frame { bytes })
    }

    /// Puts the greeting of a host to another here.
    pub(crate) fn set_greeting(&mut self, plan: &Digest, from: HostId, to: HostId)
        ensures { self.new ≡ greeting plan.now from.0 to.0 }
    {
        self.bytes.clear();
        self.bytes.push_reserved(GREETING_TAG);
        self.bytes.push_reserved(GREETING_VERSION);
        self.bytes.extend_from_slice(plan).unwrap();
        self.bytes.push_reserved(from.0);
        self.bytes.push_reserved(to.0);
    }

    /// Puts a packet here.
    pub(crate) fn set_packet(&mut self, packet: &Packet)
        ensures { self.new ≡ frame (packet_words packet.now) }
    {
        let words = words_of(packet);
        self.bytes.clear();
        self.bytes.push_reserved(PACKET_TAG);
        self.bytes.push_reserved(words.len() as u8);
        for word in words {
            self.bytes.extend_from_slice(&word.to_be_bytes()).unwrap();
        }
    }

    /// The bytes.
    pub fn as_slice(&self) -> &[u8]
        ensures { result.now ≡ self.now }
    {
        self.bytes.as_slice()
    }
}

/// The packet of these bytes, four bytes a word, the highest first.
pub(crate) fn packet_of(bytes: &[u8], count: u8) -> Packet
    requires most { count ≤ most_packet_words }
    requires whole { length bytes.now ≡ 4 * count }
    ensures count { length (packet_words result) ≡ count }
    ensures words { flat_map (to_be_bytes w32) (packet_words result) ≡ bytes.now }
{
    let mut words = [0u32; 16];
    for index in 0..count as usize {
        let at = 4 * index;
        words[index] = u32::from_be_bytes([bytes[at], bytes[at + 1], bytes[at + 2], bytes[at + 3]]);
    }
    Packet { count, words }
}
