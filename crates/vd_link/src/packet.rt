ghost use Rattle.std.specs.Prelude.{◌≡◌, ◌≤◌, length};
ghost use Rattle.vd_base.specs.Limits.{most_packet_words};
ghost use Rattle.vd_base.specs.Packets.{packet_words};

use vd_base::Packet;

/// The words of a packet.
pub fn words_of(packet: &Packet) -> &[u32]
    ensures same { result.now ≡ packet_words packet.now }
    ensures few { length result.now ≤ most_packet_words }
{
    let count = (packet.count as usize).min(packet.words.len());
    &packet.words[..count]
}
