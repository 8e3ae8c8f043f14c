ghost use Rattle.std.specs.Prelude.{◌≡◌, ◌≤◌};
ghost use Rattle.vd_base.specs.Limits.{most_packet_words};
ghost use Rattle.vd_link.specs.Sessions.{Takes, link_fault_at};

use crate::LinkFault;
use crate::frame::{PACKET_BYTES, PACKET_TAG, packet_of};
use crate::receiving::{FrameFault, fill};
use vd_base::Packet;
use vd_outside::Link;

/// What is wrong with a packet whose first byte has this offset.
fn fault_at(fault: FrameFault, offset: u64) -> LinkFault
    ensures { result ≡ link_fault_at offset fault }
{
    match fault {
        FrameFault::Peer => LinkFault::Peer,
        FrameFault::First(byte) => LinkFault::BadFrame(offset, byte),
        FrameFault::Second(byte) => LinkFault::BadFrame(offset.saturating_add(1), byte),
        FrameFault::End => LinkFault::End,
    }
}

/// Receives a packet of so many words, the first byte of which has this offset.
pub(crate) fn take_packet<L: Link>(
    link: &mut L,
    count: u8,
    offset: u64,
) -> Result<Packet, LinkFault>
    requires some { 1 ≤ count }
    requires most { count ≤ most_packet_words }
    ensures { Takes count offset (L.view link.old) (L.view link.new) result }
{
    let mut bytes = [0u8; PACKET_BYTES];
    let frame = &mut bytes[..2 + 4 * count as usize];
    match fill(link, PACKET_TAG, count, frame) {
        Ok(()) => Ok(packet_of(&frame[2..], count)),
        Err(fault) => Err(fault_at(fault, offset)),
    }
}
