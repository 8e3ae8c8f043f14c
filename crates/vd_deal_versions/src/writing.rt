//! The writer of deal files of version 2.

ghost use Rattle.std.specs.Prelude.{◌≡◌, ◌<◌, ◌++◌, Some, IfOk, OnOk, length, slice_get};
ghost use Rattle.vd_deal_versions.specs.Text.{body_text, front_text, link_text, linked_text, secret_of, secret_text};
ghost use Rattle.vd_base_codec.specs.Digits.{key_text};
ghost use Rattle.vd_tape.specs.Text.{share_text};
ghost use Rattle.vd_tape.specs.Validity.{peer_at};

use crate::sums::sum_line;
use std::alloc::{AllocError, Global};
use vd_base::Bytes;
use vd_base_codec::{push_field, push_key};
use vd_channel_crypto::{LinkKey, Secrets};
use vd_tape::{Deal, PairItem, Triple, push_heading, push_list, push_share};

/// The one text of a deal and of what its host knows of the dealing besides.
pub fn write_secret(alloc: Global, deal: &Deal, secrets: &Secrets) -> Result<Bytes, AllocError>
    ensures { IfOk result (λ text. text ≡ secret_text (secret_of deal.now secrets.now)) }
{
    let mut text = write_body(alloc, deal, secrets)?;
    let line = sum_line(alloc, text.as_slice())?;
    text.extend_from_slice(line.as_slice())?;
    Ok(text)
}

/// The text up to its last line.
fn write_body(alloc: Global, deal: &Deal, secrets: &Secrets) -> Result<Bytes, AllocError>
    ensures { IfOk result (λ text. text ≡ body_text (secret_of deal.now secrets.now)) }
{
    let mut text = Bytes::from_slice(alloc, b"viaduct-deal 2")?;
    push_front(&mut text, deal, secrets)?;
    push_linked(&mut text, deal, secrets.links.as_slice())?;
    Ok(text)
}

/// Puts what stands before the lines of peers, behind the version, at the end.
fn push_front(text: &mut Bytes, deal: &Deal, secrets: &Secrets) -> Result<(), AllocError>
    ensures { OnOk result (text.new ≡ text.old ++ front_text deal.now secrets.now) }
{
    let id = secrets.id;
    push_field(text, u64::from(deal.hosts))?;
    push_field(text, u64::from(deal.me.0))?;
    text.extend_from_slice(b"\nid ")?;
    push_id(text, id)?;
    text.extend_from_slice(b"\nown")?;
    push_list(text, deal.own.as_slice())
}

/// Puts the name of a dealing at the end.
fn push_id(text: &mut Bytes, id: [u8; 32]) -> Result<(), AllocError>
    ensures { OnOk result (text.new ≡ text.old ++ key_text id) }
{
    push_key(text, &id)
}

/// Puts the lines of all peers at the end.
fn push_linked(text: &mut Bytes, deal: &Deal, links: &[LinkKey]) -> Result<(), AllocError>
    ensures { OnOk result (text.new ≡ text.old ++ linked_text deal.now.me.0 0 links.now deal.now.triples deal.now.bits deal.now.pairs) }
{
    let triples = deal.triples.as_slice();
    let bits = deal.bits.as_slice();
    let pairs = deal.pairs.as_slice();
    let peers = links
        .len()
        .min(triples.len())
        .min(bits.len())
        .min(pairs.len());
    for place in 0..peers {
        push_one(
            text,
            peer(deal.me.0, place),
            link_at(links, place),
            triples[place].as_slice(),
            bits[place].as_slice(),
            pairs[place].as_slice(),
        )?;
    }
    Ok(())
}

/// The key of the link to the peer at a place.
fn link_at(links: &[LinkKey], place: usize) -> &LinkKey
    requires { place < length links.now }
    ensures { slice_get links.now place ≡ Some result.now }
{
    &links[place]
}

/// Puts the four lines of a peer at the end.
fn push_one(
    text: &mut Bytes,
    peer: u64,
    link: &LinkKey,
    triples: &[Triple],
    bits: &[Triple],
    pairs: &[PairItem],
) -> Result<(), AllocError>
    ensures { OnOk result (text.new ≡ text.old ++ (link_text peer link.now ++ share_text peer triples.now bits.now pairs.now)) }
{
    push_link(text, peer, link)?;
    push_share(text, peer, triples, bits, pairs)
}

/// The peer that stands at a place among the peers of a host.
fn peer(me: u8, place: usize) -> u64
    requires { place < usize.MAX }
    ensures { result ≡ peer_at me place }
{
    if place < usize::from(me) {
        place as u64
    } else {
        place as u64 + 1
    }
}

/// Puts the line of the key of the link to a peer at the end.
fn push_link(text: &mut Bytes, peer: u64, link: &LinkKey) -> Result<(), AllocError>
    ensures { OnOk result (text.new ≡ text.old ++ link_text peer link.now) }
{
    let LinkKey(key) = *link;
    push_heading(text, b"link", peer)?;
    text.push(b' ')?;
    push_key(text, &key)?;
    text.push(b'\n')
}
