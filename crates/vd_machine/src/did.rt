//! What others see of a host's next step.

ghost use Rattle.std.specs.Prelude.{◌≡◌, ℕ, ◌<◌, ◌≤◌, length, take, All};
ghost use Rattle.vd_base.specs.Limits.{most_packet_words};
ghost use Rattle.vd_base.specs.Packets.{packet_words};
ghost use Rattle.vd_execution.specs.Step.{words_in};
ghost use Rattle.vd_machine.specs.Machines.{held};
ghost use Rattle.vd_machine.specs.Kept.{OpIsWithin, PacketFits, op_deed};
ghost use Rattle.vd_machine.specs.Dids.{deed_of_outgoing, seen, OutgoingFits};

use crate::ops::{Op, Plain};
use vd_base::{HostId, Packet};
use vd_execution::{Action, Reg};

/// What others see of a step.
#[derive(Clone, Copy)]
pub enum Did {
    /// Nothing.
    Quiet,
    /// A packet goes to a peer.
    Say(HostId, Packet),
    /// A word is printed.
    Print(u32),
}

/// What others will see of a step, where the words of a packet still stand in registers.
#[derive(Clone, Copy)]
pub enum Outgoing<'a> {
    /// Nothing.
    Quiet,
    /// The words of these registers go to a peer.
    Say(HostId, &'a [Reg]),
    /// A word is printed.
    Print(u32),
}

/// The words of registers, of which a packet has room for all.
#[tactic(auto, using(crate::proofs::Packets::one_more))]
pub(crate) fn packet_of(registers: &Vec<u32>, from: &[Reg]) -> Packet
    requires within { All (λ r. r.0 < length registers.now.items) from.now }
    requires few { length from.now ≤ most_packet_words }
    ensures count { result.count ≤ most_packet_words }
    ensures words { packet_words result ≡ words_in (held registers.now.items) from.now }
{
    let mut words = [0; 16];
    let mut i = 0;
    while i < from.len() {
        words[i] = registers[from[i].0 as usize];
        i += 1;
    }
    Packet {
        count: from.len() as u8,
        words,
    }
}

/// What others will see of an instruction.
pub(crate) fn outgoing_at<'a>(registers: &Vec<u32>, op: &'a Op) -> Outgoing<'a>
    requires { OpIsWithin (length registers.now.items) op.now }
    ensures deed { deed_of_outgoing (held registers.now.items) result ≡ seen (op_deed (held registers.now.items) op.now) }
    ensures fits { (hosts : ℕ) → PacketFits hosts op.now → OutgoingFits (length registers.now.items) hosts result }
{
    match op {
        Op::Plain(Plain::Do(Action::Print(r))) => Outgoing::Print(registers[r.0 as usize]),
        Op::Plain(Plain::Send(p, from)) => Outgoing::Say(*p, from.as_slice()),
        _ => Outgoing::Quiet,
    }
}
