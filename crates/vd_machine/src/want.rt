//! What a host's next instruction needs, and what is missing.

ghost use Rattle.std.specs.Prelude.{◌≡◌, length, slice_index, nat_lt, if◌then◌else◌};
ghost use Rattle.vd_execution.specs.Ranges.{ActionFits};
ghost use Rattle.vd_execution.specs.Step.{need_of_action};
ghost use Rattle.vd_machine.specs.Machines.{held, cursors_of};
ghost use Rattle.vd_machine.specs.Kept.{OpIsWithin, PacketFits, op_need};
ghost use Rattle.vd_machine.specs.Wants.{want_of, IsFromHost};

use crate::lists::{Lists, Taken, pairs_with, triples_with};
use crate::ops::{Op, Plain};
use vd_base::{HostId, Items};
use vd_execution::Action;
use vd_tape::DealKind;

/// What the next instruction needs.
#[derive(Clone, Copy, PartialEq, Eq)]
pub enum Want {
    /// Nothing, or an item that is there.
    Nothing,
    /// A packet of so many words from a peer.
    Words(HostId, u8),
    /// There is no instruction.
    Ended,
    /// An input past the end: the cursor, and how many there are.
    ShortInput(usize, usize),
    /// A dealt item past the end.
    ShortDeal(DealKind, usize, usize),
    /// Two words that differ are to be the same.
    Unequal(u32, u32),
}

fn taken_from(taken: &Items<usize>, peer: HostId) -> usize
    ensures { result ≡ slice_index taken.now peer.0 }
{
    match taken.as_slice().get(peer.0 as usize) {
        Some(at) => *at,
        None => 0,
    }
}

fn dealt(kind: DealKind, at: usize, count: usize) -> Want
    ensures { result ≡ (if nat_lt at count then Want.Nothing else Want.ShortDeal kind at count) }
{
    if at < count {
        Want::Nothing
    } else {
        Want::ShortDeal(kind, at, count)
    }
}

/// What an action needs.
pub(crate) fn want_action(
    registers: &Vec<u32>,
    taken: &Taken,
    lists: &Lists,
    action: &Action,
) -> Want
    requires { ActionFits (length registers.now.items) action.now }
    ensures { result ≡ want_of lists.now (cursors_of taken.now) (need_of_action (held registers.now.items) action.now) }
{
    match action {
        Action::Own(_) => dealt(DealKind::Own, taken.own, lists.deal.own.as_slice().len()),
        Action::Triple(p, _, _, _) => {
            let count = triples_with(&lists.deal.triples, lists.deal.me, *p).len();
            dealt(DealKind::Mul, taken_from(&taken.triples, *p), count)
        }
        Action::Bits(p, _, _, _) => {
            let count = triples_with(&lists.deal.bits, lists.deal.me, *p).len();
            dealt(DealKind::And, taken_from(&taken.bits, *p), count)
        }
        Action::Pair(p, _, _) => {
            let count = pairs_with(&lists.deal.pairs, lists.deal.me, *p).len();
            dealt(DealKind::Pair, taken_from(&taken.pairs, *p), count)
        }
        Action::Input(_) => {
            let count = lists.inputs.as_slice().len();
            if taken.inputs < count {
                Want::Nothing
            } else {
                Want::ShortInput(taken.inputs, count)
            }
        }
        Action::Same(x, y) => {
            let left = registers[x.0 as usize];
            let right = registers[y.0 as usize];
            if left == right {
                Want::Nothing
            } else {
                Want::Unequal(left, right)
            }
        }
        Action::Const(_, _) => Want::Nothing,
        Action::Copy(_, _) => Want::Nothing,
        Action::Apply(_, _, _, _) => Want::Nothing,
        Action::Shl(_, _, _) => Want::Nothing,
        Action::Shr(_, _, _) => Want::Nothing,
        Action::Mux(_, _, _, _) => Want::Nothing,
        Action::Print(_) => Want::Nothing,
        Action::Hash(_, _, _) => Want::Nothing,
        Action::Zero(_, _) => Want::Nothing,
        Action::Get(_, _, _, _) => Want::Nothing,
        Action::Put(_, _, _, _) => Want::Nothing,
    }
}

/// What an instruction needs.
pub(crate) fn want_at(registers: &Vec<u32>, taken: &Taken, lists: &Lists, op: &Op) -> Want
    requires within { OpIsWithin (length registers.now.items) op.now }
    requires few { PacketFits lists.now.deal.hosts op.now }
    ensures host { IsFromHost lists.now.deal.hosts result }
    ensures need { result ≡ want_of lists.now (cursors_of taken.now) (op_need (held registers.now.items) op.now) }
{
    match op {
        Op::If { .. } => Want::Nothing,
        Op::For { .. } => Want::Nothing,
        Op::Plain(plain) => match plain {
            Plain::Do(action) => want_action(registers, taken, lists, action),
            Plain::Send(_, _) => Want::Nothing,
            Plain::Recv(p, into) => Want::Words(*p, into.as_slice().len() as u8),
        },
    }
}
