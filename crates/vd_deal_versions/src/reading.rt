//! The reader of deal files of both versions.

ghost use Rattle.std.specs.Prelude.{◌≡◌, ◌<◌};
ghost use Rattle.vd_base_codec.specs.Reading.{Gives, GivesOrMemory, to_the_end};
ghost use Rattle.vd_deal_versions.specs.Reading.{body_at, dealt_at, is_second, front_at, link_at, linked_at, one_at, secret_at};

use crate::dealt::{Dealt, SecretDeal};
use crate::sums::read_sum;
use std::alloc::Global;
use vd_base::{HostId, Items};
use vd_base_codec::{CodecFault, Cursor, Stopped, read_key};
use vd_channel_crypto::{LinkKey, Secrets};
use vd_tape::{
    Deal, PairItem, Share, Triple, peer, read_heading, read_list, read_plain, read_share,
};

/// What a host shares with one peer, and the key of the link to it.
#[derive(Drop)]
struct LinkedShare {
    link: LinkKey,
    share: Share,
}

/// What a host shares with its peers, in their order, and the keys of the links to them.
#[derive(Drop)]
struct Linked {
    links: Items<LinkKey>,
    triples: Items<Items<Triple>>,
    bits: Items<Items<Triple>>,
    pairs: Items<Items<PairItem>>,
}

/// Whether the bytes, if they are those of a deal file at all, are those of one of version 2.
fn is_second(cursor: &Cursor) -> bool
    ensures { result ≡ is_second cursor.now }
{
    let bytes = cursor.as_slice();
    bytes.len() > 13 && bytes[13] == b'2'
}

/// The whole file, which has these bytes.
pub(crate) fn read_file(
    alloc: Global,
    cursor: &mut Cursor,
    bytes: &[u8],
    hosts: u8,
    me: HostId,
) -> Result<Dealt, CodecFault>
    requires hosts { 0 < hosts }
    requires begun { cursor.old ≡ bytes.now }
    ensures { GivesOrMemory result cursor.new (to_the_end (dealt_at hosts me.0 cursor.old)) }
{
    let dealt = read_either(alloc, cursor, bytes, hosts, me)?;
    cursor.end()?;
    Ok(dealt)
}

/// A file of either version, which has these bytes.
fn read_either(
    alloc: Global,
    cursor: &mut Cursor,
    bytes: &[u8],
    hosts: u8,
    me: HostId,
) -> Result<Dealt, CodecFault>
    requires hosts { 0 < hosts }
    requires begun { cursor.old ≡ bytes.now }
    ensures { GivesOrMemory result cursor.new (dealt_at hosts me.0 cursor.old) }
{
    if is_second(cursor) {
        let SecretDeal { deal, secrets } = read_version_2(alloc, cursor, bytes, hosts, me)?;
        Ok(Dealt {
            deal,
            secrets: Some(secrets),
        })
    } else {
        let deal = read_plain(alloc, cursor, hosts, me)?;
        Ok(Dealt {
            deal,
            secrets: None,
        })
    }
}

/// A file of version 2, which has these bytes: the last line has the digest of all that stands before it.
#[tactic(auto, unfolding(crate::specs::Reading::secret_at))]
fn read_version_2(
    alloc: Global,
    cursor: &mut Cursor,
    bytes: &[u8],
    hosts: u8,
    me: HostId,
) -> Result<SecretDeal, CodecFault>
    requires hosts { 0 < hosts }
    requires begun { cursor.old ≡ bytes.now }
    ensures { GivesOrMemory result cursor.new (secret_at hosts me.0 cursor.old) }
{
    let dealt = read_body(alloc, cursor, hosts, me)?;
    let count = bytes.len().saturating_sub(cursor.len());
    read_sum(alloc, cursor, &bytes[..count])?;
    Ok(dealt)
}

/// A file of version 2 up to its last line.
#[tactic(auto, unfolding(crate::specs::Reading::body_at))]
fn read_body(
    alloc: Global,
    cursor: &mut Cursor,
    hosts: u8,
    me: HostId,
) -> Result<SecretDeal, CodecFault>
    requires { 0 < hosts }
    ensures { GivesOrMemory result cursor.new (body_at hosts me.0 cursor.old) }
{
    let id = read_front(cursor, hosts, me)?;
    let own = read_list(alloc, cursor)?;
    let linked = read_linked(alloc, cursor, hosts - 1, me.0)?;
    Ok(SecretDeal {
        deal: Deal {
            hosts,
            me,
            own,
            triples: linked.triples,
            bits: linked.bits,
            pairs: linked.pairs,
        },
        secrets: Secrets {
            id,
            links: linked.links,
        },
    })
}

/// The version, the numbers and the name of the dealing, up to the own words.
#[tactic(auto, unfolding(crate::specs::Reading::front_at))]
fn read_front(cursor: &mut Cursor, hosts: u8, me: HostId) -> Result<[u8; 32], Stopped>
    ensures { Gives result cursor.new (front_at hosts me.0 cursor.old) }
{
    cursor.literal(b"viaduct-deal 2")?;
    cursor.expect_field(u32::from(hosts))?;
    cursor.expect_field(u32::from(me.0))?;
    cursor.literal(b"\nid ")?;
    let id = read_key(cursor)?;
    cursor.literal(b"\nown")?;
    Ok(id)
}

/// The lines of so many peers.
fn read_linked(alloc: Global, cursor: &mut Cursor, count: u8, me: u8) -> Result<Linked, CodecFault>
    ensures { GivesOrMemory result cursor.new (linked_at me 0 count cursor.old) }
{
    let mut linked = Linked {
        links: Items::new(alloc),
        triples: Items::new(alloc),
        bits: Items::new(alloc),
        pairs: Items::new(alloc),
    };
    for place in 0..count {
        let one = read_one(alloc, cursor, peer(me, place))?;
        linked.links.push(one.link)?;
        let share = one.share;
        linked.triples.push(share.triples)?;
        linked.bits.push(share.bits)?;
        linked.pairs.push(share.pairs)?;
    }
    Ok(linked)
}

/// The line of the key of the link to a peer, and the three lines of its items.
#[tactic(auto, unfolding(crate::specs::Reading::one_at))]
fn read_one(alloc: Global, cursor: &mut Cursor, peer: u8) -> Result<LinkedShare, CodecFault>
    ensures { GivesOrMemory result cursor.new (one_at peer cursor.old) }
{
    let link = read_link(cursor, peer)?;
    let share = read_share(alloc, cursor, peer)?;
    Ok(LinkedShare { link, share })
}

/// The line of the key of the link to a peer.
#[tactic(auto, unfolding(crate::specs::Reading::link_at))]
fn read_link(cursor: &mut Cursor, peer: u8) -> Result<LinkKey, Stopped>
    ensures { Gives result cursor.new (link_at peer cursor.old) }
{
    read_heading(cursor, b"link", peer)?;
    cursor.byte(b' ')?;
    let key = read_key(cursor)?;
    cursor.byte(b'\n')?;
    Ok(LinkKey(key))
}
