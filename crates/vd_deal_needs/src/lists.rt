//! The lists that a host's code takes items from.

ghost use Rattle.std.specs.Prelude.{◌≡◌};
ghost use Rattle.std.specs.Option.{option_map};
ghost use Rattle.vd_execution.specs.Step.{same_source};
ghost use Rattle.vd_deal_needs.specs.DealNeedsLawsNeeds.{one_of, source_of};
ghost use Rattle.vd_deal_needs.specs.Lists.{source_in};

use vd_base::HostId;
use vd_execution::Action;

/// A list that a host takes items from, one after the other.
#[derive(Clone, Copy, PartialEq, Eq)]
pub enum ItemList {
    /// The host's inputs.
    Inputs,
    /// Its own random words.
    Own,
    /// The products of words that it shares with a peer.
    Muls(HostId),
    /// The products of bits that it shares with a peer.
    Ands(HostId),
    /// The sums and exclusive ors that it shares with a peer.
    Pairs(HostId),
}

/// The list that an action takes an item from, if it takes one.
fn list_of(action: &Action) -> Option<ItemList>
    ensures { option_map source_in result ≡ source_of action.now }
{
    match *action {
        Action::Input(_) => Some(ItemList::Inputs),
        Action::Own(_) => Some(ItemList::Own),
        Action::Triple(peer, _, _, _) => Some(ItemList::Muls(peer)),
        Action::Bits(peer, _, _, _) => Some(ItemList::Ands(peer)),
        Action::Pair(peer, _, _) => Some(ItemList::Pairs(peer)),
        Action::Const(_, _)
        | Action::Copy(_, _)
        | Action::Apply(_, _, _, _)
        | Action::Shl(_, _, _)
        | Action::Shr(_, _, _)
        | Action::Mux(_, _, _, _)
        | Action::Print(_)
        | Action::Hash(_, _, _)
        | Action::Same(_, _)
        | Action::Zero(_, _)
        | Action::Get(_, _, _, _)
        | Action::Put(_, _, _, _) => None,
    }
}

/// Whether two lists are the same.
fn are_same(list: ItemList, other: ItemList) -> bool
    ensures { result ≡ same_source (source_in list) (source_in other) }
{
    match list {
        ItemList::Inputs => matches!(other, ItemList::Inputs),
        ItemList::Own => matches!(other, ItemList::Own),
        ItemList::Muls(peer) => matches!(other, ItemList::Muls(it) if peer.0 == it.0),
        ItemList::Ands(peer) => matches!(other, ItemList::Ands(it) if peer.0 == it.0),
        ItemList::Pairs(peer) => matches!(other, ItemList::Pairs(it) if peer.0 == it.0),
    }
}

/// How many items an action takes from a list: one, or none.
pub(crate) fn taken_by(action: &Action, list: ItemList) -> u64
    ensures { result ≡ one_of (source_of action.now) (source_in list) }
{
    match list_of(action) {
        Some(other) => u64::from(are_same(list, other)),
        None => 0,
    }
}
