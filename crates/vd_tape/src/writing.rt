//! The writer of deal files.

ghost use Rattle.std.specs.Prelude.{◌≡◌, ◌<◌, ◌++◌, IfOk, OnOk};
ghost use Rattle.vd_base_codec.specs.Reading.{field};
ghost use Rattle.vd_tape.specs.Validity.{peer_at};
ghost use Rattle.vd_tape.specs.Text.{list_text, share_text, shares_text, deal_text};

use crate::deal_items::{Deal, PairItem, Triple};
use crate::item::Item;
use std::alloc::{AllocError, Global};
use vd_base::Bytes;
use vd_base_codec::push_field;

/// The one text of a deal.
pub fn write_deal(alloc: Global, deal: &Deal) -> Result<Bytes, AllocError>
    ensures { IfOk result (λ text. text ≡ deal_text deal.now) }
{
    let mut text = Bytes::from_slice(alloc, b"viaduct-deal 1")?;
    push_field(&mut text, u64::from(deal.hosts))?;
    push_field(&mut text, u64::from(deal.me.0))?;
    text.extend_from_slice(b"\nown")?;
    push_list(&mut text, deal.own.as_slice())?;
    push_shares(&mut text, deal)?;
    Ok(text)
}

/// Puts the lines of all peers at the end.
fn push_shares(text: &mut Bytes, deal: &Deal) -> Result<(), AllocError>
    ensures { OnOk result (text.new ≡ text.old ++ shares_text deal.now.me.0 0 deal.now.triples deal.now.bits deal.now.pairs) }
{
    let triples = deal.triples.as_slice();
    let bits = deal.bits.as_slice();
    let pairs = deal.pairs.as_slice();
    let peers = triples.len().min(bits.len()).min(pairs.len());
    for place in 0..peers {
        push_share(
            text,
            peer(deal.me.0, place),
            triples[place].as_slice(),
            bits[place].as_slice(),
            pairs[place].as_slice(),
        )?;
    }
    Ok(())
}

/// The peer that stands at a place among the peers of a host.
fn peer(me: u8, place: usize) -> u64
    requires { place < usize.MAX }
    ensures { result ≡ peer_at me place }
{
    if place < usize::from(me) {
        place as u64
    } else {
        place as u64 + 1
    }
}

/// Puts the three lines of a peer at the end.
pub fn push_share(
    text: &mut Bytes,
    peer: u64,
    triples: &[Triple],
    bits: &[Triple],
    pairs: &[PairItem],
) -> Result<(), AllocError>
    ensures { OnOk result (text.new ≡ text.old ++ share_text peer triples.now bits.now pairs.now) }
{
    push_heading(text, b"mul", peer)?;
    push_list(text, triples)?;
    push_heading(text, b"and", peer)?;
    push_list(text, bits)?;
    push_heading(text, b"pair", peer)?;
    push_list(text, pairs)
}

/// Puts the head of a line at the end: the kind of its items, and the peer.
pub fn push_heading(text: &mut Bytes, kind: &[u8], peer: u64) -> Result<(), AllocError>
    ensures { OnOk result (text.new ≡ text.old ++ (kind.now ++ field peer)) }
{
    text.extend_from_slice(kind)?;
    push_field(text, peer)
}

/// Puts the rest of a line at the end: how many items there are, and the items.
pub fn push_list<T: Item>(text: &mut Bytes, items: &[T]) -> Result<(), AllocError>
    ensures { OnOk result (text.new ≡ text.old ++ list_text T.text items.now) }
{
    push_field(text, items.len() as u64)?;
    for item in items {
        item.push(text)?;
    }
    text.push(b'\n')
}
