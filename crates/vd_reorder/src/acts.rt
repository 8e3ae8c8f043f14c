//! What two actions of one host need of each other.

ghost use Rattle.std.specs.Prelude.{◌≡◌, nat_eq, if◌then◌else◌, true};
ghost use Rattle.vd_reorder.specs.ReorderLawsTesting as testing;
ghost use Rattle.vd_reorder.specs.Lists.{need_in};

use crate::registers::{any_overlap, read_by, written_by};
use vd_base::HostId;
use vd_execution::Action;

/// Whether an action prints nothing and compares nothing.
pub fn is_simple(action: &Action) -> bool
    ensures { result ≡ testing.is_simple action.now }
{
    !matches!(action, Action::Print(_) | Action::Same(_, _))
}

/// A list that an action takes an item from, or none.
#[derive(Clone, Copy, PartialEq, Eq)]
pub(crate) enum Taken {
    Nothing,
    Inputs,
    Own,
    Triples(HostId),
    Bits(HostId),
    Pairs(HostId),
}

/// The list that an action takes an item from.
fn taken_by(action: &Action) -> Taken
    ensures { need_in result ≡ testing.needs action.now }
{
    match *action {
        Action::Input(_) => Taken::Inputs,
        Action::Own(_) => Taken::Own,
        Action::Triple(peer, _, _, _) => Taken::Triples(peer),
        Action::Bits(peer, _, _, _) => Taken::Bits(peer),
        Action::Pair(peer, _, _) => Taken::Pairs(peer),
        Action::Const(_, _)
        | Action::Copy(_, _)
        | Action::Apply(_, _, _, _)
        | Action::Shl(_, _, _)
        | Action::Shr(_, _, _)
        | Action::Mux(_, _, _, _)
        | Action::Print(_)
        | Action::Hash(_, _, _)
        | Action::Same(_, _)
        | Action::Zero(_, _)
        | Action::Get(_, _, _, _)
        | Action::Put(_, _, _, _) => Taken::Nothing,
    }
}

/// Whether two hosts are the same.
#[tactic(auto, using(crate::proofs::Tests::same_either_way))]
fn are_same(peer: HostId, other: HostId) -> bool
    ensures { result ≡ (if nat_eq peer.0 other.0 then true else nat_eq other.0 peer.0) }
{
    peer.0 == other.0
}

/// Whether an item is taken from both, and they are the same list.
fn share_list(taken: Taken, other: Taken) -> bool
    ensures { result ≡ testing.share_list (need_in taken) (need_in other) }
{
    match taken {
        Taken::Nothing => false,
        Taken::Inputs => matches!(other, Taken::Inputs),
        Taken::Own => matches!(other, Taken::Own),
        Taken::Triples(peer) => matches!(other, Taken::Triples(it) if are_same(peer, it)),
        Taken::Bits(peer) => matches!(other, Taken::Bits(it) if are_same(peer, it)),
        Taken::Pairs(peer) => matches!(other, Taken::Pairs(it) if are_same(peer, it)),
    }
}

/// Whether neither action writes what the other reads or writes, and they take from different lists.
pub fn both_may(first: &Action, second: &Action) -> bool
    ensures { result ≡ testing.both_may first.now second.now }
{
    let written = written_by(first);
    let second_written = written_by(second);
    !share_list(taken_by(first), taken_by(second))
        && (!any_overlap(read_by(second), written)
            && (!any_overlap(read_by(first), second_written)
                && !any_overlap(written, second_written)))
}
