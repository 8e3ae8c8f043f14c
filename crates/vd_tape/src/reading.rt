//! The reader of deal files.

ghost use Rattle.std.specs.Prelude.{◌≡◌, ◌+◌, ◌-◌, ◌<◌, ◌≤◌};
ghost use Rattle.vd_base.specs.Limits.{most_hosts};
ghost use Rattle.vd_base_codec.specs.Reading.{Gives, GivesOrMemory, to_the_end, each_at};
ghost use Rattle.vd_tape.specs.Validity.{peer_at};
ghost use Rattle.vd_tape.specs.Reading.{list_at, heading_at, share_at, shares_at, deal_at};

use crate::deal_items::{Deal, PairItem, Triple};
use crate::item::Item;
use std::alloc::Global;
use vd_base::limits::DEAL_ITEMS;
use vd_base::{HostId, Items};
use vd_base_codec::{CodecFault, Cursor, Stopped};

/// What a host shares with one peer.
#[derive(Drop)]
pub struct Share {
    pub triples: Items<Triple>,
    pub bits: Items<Triple>,
    pub pairs: Items<PairItem>,
}

/// What a host shares with its peers, in their order.
#[derive(Drop)]
pub struct Shares {
    pub triples: Items<Items<Triple>>,
    pub bits: Items<Items<Triple>>,
    pub pairs: Items<Items<PairItem>>,
}

/// The whole file.
pub(crate) fn read_file(
    alloc: Global,
    cursor: &mut Cursor,
    hosts: u8,
    me: HostId,
) -> Result<Deal, CodecFault>
    requires { 0 < hosts }
    ensures { GivesOrMemory result cursor.new (to_the_end (deal_at hosts me.0 cursor.old)) }
{
    let deal = read_plain(alloc, cursor, hosts, me)?;
    cursor.end()?;
    Ok(deal)
}

/// All lines of a file.
#[tactic(auto, unfolding(crate::specs::Reading::deal_at))]
pub fn read_plain(
    alloc: Global,
    cursor: &mut Cursor,
    hosts: u8,
    me: HostId,
) -> Result<Deal, CodecFault>
    requires { 0 < hosts }
    ensures { GivesOrMemory result cursor.new (deal_at hosts me.0 cursor.old) }
{
    cursor.literal(b"viaduct-deal 1")?;
    cursor.expect_field(u32::from(hosts))?;
    cursor.expect_field(u32::from(me.0))?;
    cursor.literal(b"\nown")?;
    let own = read_list(alloc, cursor)?;
    let shares = read_shares(alloc, cursor, hosts - 1, me.0)?;
    Ok(Deal {
        hosts,
        me,
        own,
        triples: shares.triples,
        bits: shares.bits,
        pairs: shares.pairs,
    })
}

/// The lines of so many peers.
fn read_shares(alloc: Global, cursor: &mut Cursor, count: u8, me: u8) -> Result<Shares, CodecFault>
    ensures { GivesOrMemory result cursor.new (shares_at me 0 count cursor.old) }
{
    let mut shares = Shares {
        triples: Items::new(alloc),
        bits: Items::new(alloc),
        pairs: Items::new(alloc),
    };
    for place in 0..count {
        let share = read_share(alloc, cursor, peer(me, place))?;
        shares.triples.push(share.triples)?;
        shares.bits.push(share.bits)?;
        shares.pairs.push(share.pairs)?;
    }
    Ok(shares)
}

/// The peer that stands at a place among the peers of a host.
pub fn peer(me: u8, place: u8) -> u8
    requires { place < 255 }
    ensures { result ≡ peer_at me place }
{
    if place < me { place } else { place + 1 }
}

/// The three lines of a peer.
#[tactic(auto, unfolding(crate::specs::Reading::share_at))]
pub fn read_share(alloc: Global, cursor: &mut Cursor, peer: u8) -> Result<Share, CodecFault>
    ensures { GivesOrMemory result cursor.new (share_at peer cursor.old) }
{
    read_heading(cursor, b"mul", peer)?;
    let triples = read_list(alloc, cursor)?;
    read_heading(cursor, b"and", peer)?;
    let bits = read_list(alloc, cursor)?;
    read_heading(cursor, b"pair", peer)?;
    let pairs = read_list(alloc, cursor)?;
    Ok(Share {
        triples,
        bits,
        pairs,
    })
}

/// The head of a line: the kind of its items, and the peer.
#[tactic(auto, unfolding(crate::specs::Reading::heading_at))]
pub fn read_heading(cursor: &mut Cursor, kind: &[u8], peer: u8) -> Result<(), Stopped>
    ensures { Gives result cursor.new (heading_at kind.now peer cursor.old) }
{
    cursor.literal(kind)?;
    cursor.expect_field(u32::from(peer))
}

/// The rest of a line: how many items there are, and the items.
#[tactic(auto, unfolding(crate::specs::Reading::list_at))]
pub fn read_list<T: Item>(alloc: Global, cursor: &mut Cursor) -> Result<Items<T>, CodecFault>
    ensures { GivesOrMemory result cursor.new (list_at T.reading cursor.old) }
{
    let count = cursor.field(DEAL_ITEMS)?;
    let items = read_items(alloc, cursor, count)?;
    cursor.byte(b'\n')?;
    Ok(items)
}

/// So many items.
fn read_items<T: Item>(
    alloc: Global,
    cursor: &mut Cursor,
    count: u32,
) -> Result<Items<T>, CodecFault>
    ensures { GivesOrMemory result cursor.new (each_at T.reading count cursor.old) }
{
    let mut items = Items::new(alloc);
    for _ in 0..count {
        let item = T::read(cursor)?;
        items.push(item)?;
    }
    Ok(items)
}
