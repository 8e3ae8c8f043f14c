//! Which of two instructions may stand before the other.

ghost use Rattle.std.specs.Prelude.{◌≡◌};
ghost use Rattle.vd_execution.specs.declared.instructions.Instr.TheVariants as instr;
ghost use Rattle.vd_reorder.specs.Hastening.{Acts, Awaits, Sends};
ghost use Rattle.vd_reorder.specs.ReorderLawsTesting as testing;
ghost use Rattle.vd_reorder.specs.Careful.{careful};
ghost use Rattle.vd_reorder.specs.Packets as packets;
ghost use Rattle.vd_reorder.specs.Packets.{stays_by};
ghost use Rattle.vd_reorder.specs.Passing.{passes};

use crate::acts::{both_may, is_simple};
use crate::registers::{any_among, any_overlap, have_common, read_by, written_by};
use vd_base::{HostId, Items};
use vd_execution::{Action, Instr, Reg};

/// Whether an action prints.
fn is_print(action: &Action) -> bool
    ensures { result ≡ testing.is_print action.now }
{
    matches!(action, Action::Print(_))
}

/// Whether an action may stand before another one.
fn action_passes_action(first: &Action, action: &Action) -> bool
    ensures { result ≡ testing.may (Acts first.now) (Acts action.now) }
{
    if !is_simple(action) {
        return false;
    }
    if is_simple(first) {
        return both_may(first, action);
    }
    is_print(first) && !any_overlap(read_by(first), written_by(action))
}

/// Whether an action may stand before a receive into these registers.
fn action_passes_receive(peer: HostId, registers: &[Reg], action: &Action) -> bool
    ensures { result ≡ testing.may (Awaits peer.0 registers.now) (Acts action.now) }
{
    is_simple(action)
        && (!any_among(registers, read_by(action)) && !any_among(registers, written_by(action)))
}

/// Whether a packet may stand before an action, as far as registers go.
fn packet_passes_action(action: &Action, peer: HostId, registers: &[Reg]) -> bool
    ensures { result ≡ testing.may (Acts action.now) (Sends peer.0 registers.now) }
{
    if is_simple(action) {
        !any_among(registers, written_by(action))
    } else {
        is_print(action)
    }
}

/// Whether an action draws an own word.
fn is_draw(action: &Action) -> bool
    ensures { result ≡ packets.is_draw action.now }
{
    matches!(action, Action::Own(_))
}

/// Whether an action may stand before an instruction: one of them draws an own word.
#[tactic(auto, using(crate::proofs::Tests::careful_action, crate::proofs::Tests::careful_receive))]
fn action_passes(first: &Instr, action: &Action, opened: &[Reg]) -> bool
    ensures { result ≡ passes (careful (stays_by opened.now)) first.now (instr.Do action.now) }
{
    match first {
        Instr::Do(earlier) => {
            action_passes_action(earlier, action) && (is_draw(earlier) || is_draw(action))
        }
        Instr::Recv(peer, registers) => {
            action_passes_receive(*peer, registers.as_slice(), action) && is_draw(action)
        }
        _ => false,
    }
}

/// Whether a packet may go before an instruction. Where the instruction is to stay in its order, the packet holds no register that is
/// opened.
#[tactic(auto, using(crate::proofs::Tests::careful_packet, crate::proofs::Tests::careful_await))]
fn packet_passes(first: &Instr, peer: HostId, registers: &Items<Reg>, opened: &[Reg]) -> bool
    ensures { result ≡ passes (careful (stays_by opened.now)) first.now (instr.Send peer registers.now) }
{
    match first {
        Instr::Do(action) => {
            packet_passes_action(action, peer, registers.as_slice())
                && (is_draw(action) || !have_common(registers.as_slice(), opened))
        }
        Instr::Recv(_, awaited) => {
            !have_common(registers.as_slice(), awaited.as_slice())
                && !have_common(registers.as_slice(), opened)
        }
        _ => false,
    }
}

/// Whether the second of two neighbours may stand before the first, where packets with these registers are open.
pub(crate) fn may_pass(first: &Instr, second: &Instr, opened: &[Reg]) -> bool
    ensures { result ≡ passes (careful (stays_by opened.now)) first.now second.now }
{
    match second {
        Instr::Do(action) => action_passes(first, action, opened),
        Instr::Send(peer, registers) => packet_passes(first, *peer, registers, opened),
        _ => false,
    }
}
