//! What a host takes items from, and how far it is.

ghost use Rattle.std.specs.Prelude.{◌≡◌};
ghost use Rattle.vd_machine.specs.Machines.{list_of};

use vd_base::{HostId, Items, Words};
use vd_tape::{Deal, PairItem, Triple};

/// A host's inputs, and what it was dealt.
#[derive(Drop)]
pub struct Lists {
    pub inputs: Words,
    pub deal: Deal,
}

/// How many items of each list were taken. The lists of a peer are counted at the peer's number.
#[derive(Drop)]
pub(crate) struct Taken {
    pub inputs: usize,
    pub own: usize,
    pub triples: Items<usize>,
    pub bits: Items<usize>,
    pub pairs: Items<usize>,
}

/// The triples that a host shares with a peer; none with itself.
pub(crate) fn triples_with<'a>(
    lists: &'a Items<Items<Triple>>,
    me: HostId,
    peer: HostId,
) -> &'a [Triple]
    ensures { result.now ≡ list_of lists.now me.0 peer.0 }
{
    if peer.0 == me.0 {
        return &[];
    }
    let place = if peer.0 < me.0 { peer.0 } else { peer.0 - 1 };
    match lists.as_slice().get(place as usize) {
        Some(list) => list.as_slice(),
        None => &[],
    }
}

/// The pairs that a host shares with a peer; none with itself.
pub(crate) fn pairs_with<'a>(
    lists: &'a Items<Items<PairItem>>,
    me: HostId,
    peer: HostId,
) -> &'a [PairItem]
    ensures { result.now ≡ list_of lists.now me.0 peer.0 }
{
    if peer.0 == me.0 {
        return &[];
    }
    let place = if peer.0 < me.0 { peer.0 } else { peer.0 - 1 };
    match lists.as_slice().get(place as usize) {
        Some(list) => list.as_slice(),
        None => &[],
    }
}
