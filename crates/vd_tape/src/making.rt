//! The deals that a key of 32 bytes makes, and those of a number.

ghost use Rattle.std.specs.Prelude.{◌≡◌, min, max, ◌+◌, ◌<◌, ◌≤◌, ◌^◌, IfOk};
ghost use Rattle.rand_chacha.specs.ChaCha.{word_at};
ghost use Rattle.vd_base.specs.Limits.{most_hosts, most_deal_items};
ghost use Rattle.vd_tape.specs.Validity.{AreDeals, IsConsistent, peer_at};
ghost use Rattle.vd_tape.specs.Made.{AreCounts, made_deals, keyed_deals, keyed_deal, keyed_word, number_key, words_from, shared_stream, mul_parts, and_parts, pair_parts, part_of, mul_item, and_item, pair_item, first_of};
ghost use Rattle.vd_tape.specs.Generator.{IsAt, stands_at, words_at, open_parts};

use crate::deal_items::{Counts, Deal, Deals, PairItem, Triple, and_sides, mul_sides, pair_sides};
use crate::reading::peer;
use rand_chacha::ChaCha20Rng;
use rand_core::SeedableRng;
use rand_core::utils::NextWord;
use std::alloc::{AllocError, Global};
use vd_base::{HostId, Items, Words};

/// The deals of all hosts that a number makes.
pub fn make(alloc: Global, counts: Counts, number: u64) -> Result<Deals, AllocError>
    requires { AreCounts counts }
    ensures made { IfOk result (λ deals. deals ≡ made_deals counts number) }
    ensures valid { IfOk result AreDeals }
    ensures consistent { IfOk result IsConsistent }
{
    make_by_key(alloc, counts, &number_key(number))
}

/// The key of a number: its eight bytes, the lowest first, and zeros behind them.
fn number_key(number: u64) -> [u8; 32]
    ensures { result ≡ number_key number }
{
    let mut key = [0; 32];
    key[..8].copy_from_slice(&number.to_le_bytes());
    key
}

/// The deals of all hosts that a key makes.
pub fn make_by_key(alloc: Global, counts: Counts, key: &[u8; 32]) -> Result<Deals, AllocError>
    requires { AreCounts counts }
    ensures made { IfOk result (λ deals. deals ≡ keyed_deals counts key.now) }
    ensures valid { IfOk result AreDeals }
    ensures consistent { IfOk result IsConsistent }
{
    make_all(alloc, counts, key)
}

/// The deals, one host after the other.
fn make_all(alloc: Global, counts: Counts, key: &[u8; 32]) -> Result<Deals, AllocError>
    ensures { IfOk result (λ deals. deals ≡ keyed_deals counts key.now) }
{
    let mut deals = Deals::new(alloc);
    for me in 0..counts.hosts {
        let deal = make_deal(alloc, counts, key, me)?;
        deals.push(deal)?;
    }
    Ok(deals)
}

/// The deal of one host.
fn make_deal(alloc: Global, counts: Counts, key: &[u8; 32], me: u8) -> Result<Deal, AllocError>
    requires { 0 < counts.hosts }
    ensures { IfOk result (λ deal. deal ≡ keyed_deal counts key.now me) }
{
    let own = own_words(alloc, key, me, counts.own)?;
    let peers = counts.hosts - 1;
    let triples = shared_muls(alloc, key, me, peers, counts.muls)?;
    let bits = shared_ands(alloc, key, me, peers, counts.ands)?;
    let pairs = shared_pairs(alloc, key, me, peers, counts.pairs)?;
    Ok(Deal {
        hosts: counts.hosts,
        me: HostId(me),
        own,
        triples,
        bits,
        pairs,
    })
}

/// For each peer, the parts of products.
fn shared_muls(
    alloc: Global,
    key: &[u8; 32],
    me: u8,
    peers: u8,
    count: u32,
) -> Result<Items<Items<Triple>>, AllocError>
    ensures { IfOk result (λ lists. lists ≡ first_of peers (λ place. first_of count (mul_item key.now me (peer_at me place)))) }
{
    let mut lists = Items::new(alloc);
    for place in 0..peers {
        let items = mul_items(alloc, key, me, peer(me, place), count)?;
        lists.push(items)?;
    }
    Ok(lists)
}

/// For each peer, the parts of products of bits.
fn shared_ands(
    alloc: Global,
    key: &[u8; 32],
    me: u8,
    peers: u8,
    count: u32,
) -> Result<Items<Items<Triple>>, AllocError>
    ensures { IfOk result (λ lists. lists ≡ first_of peers (λ place. first_of count (and_item key.now me (peer_at me place)))) }
{
    let mut lists = Items::new(alloc);
    for place in 0..peers {
        let items = and_items(alloc, key, me, peer(me, place), count)?;
        lists.push(items)?;
    }
    Ok(lists)
}

/// For each peer, the parts of sums and exclusive ors.
fn shared_pairs(
    alloc: Global,
    key: &[u8; 32],
    me: u8,
    peers: u8,
    count: u32,
) -> Result<Items<Items<PairItem>>, AllocError>
    ensures { IfOk result (λ lists. lists ≡ first_of peers (λ place. first_of count (pair_item key.now me (peer_at me place)))) }
{
    let mut lists = Items::new(alloc);
    for place in 0..peers {
        let items = pair_items(alloc, key, me, peer(me, place), count)?;
        lists.push(items)?;
    }
    Ok(lists)
}

/// The own words of a host.
fn own_words(alloc: Global, key: &[u8; 32], me: u8, count: u32) -> Result<Words, AllocError>
    ensures { IfOk result (λ words. words ≡ first_of count (keyed_word key.now me)) }
{
    let mut generator = stream(key, u64::from(me));
    let mut words = Words::new(alloc);
    for _ in 0..count {
        words.push(draw(&mut generator))?;
    }
    Ok(words)
}

/// The parts of products that a host shares with a peer.
fn mul_items(
    alloc: Global,
    key: &[u8; 32],
    me: u8,
    peer: u8,
    count: u32,
) -> Result<Items<Triple>, AllocError>
    ensures { IfOk result (λ items. items ≡ first_of count (mul_item key.now me peer)) }
{
    let mut generator = stream(key, shared_stream(me, peer, 0));
    let mut items = Items::new(alloc);
    for _ in 0..count {
        items.push(part_of(me, peer, draw_mul(&mut generator)))?;
    }
    Ok(items)
}

/// The parts of products of bits that a host shares with a peer.
fn and_items(
    alloc: Global,
    key: &[u8; 32],
    me: u8,
    peer: u8,
    count: u32,
) -> Result<Items<Triple>, AllocError>
    ensures { IfOk result (λ items. items ≡ first_of count (and_item key.now me peer)) }
{
    let mut generator = stream(key, shared_stream(me, peer, 1));
    let mut items = Items::new(alloc);
    for _ in 0..count {
        items.push(part_of(me, peer, draw_and(&mut generator)))?;
    }
    Ok(items)
}

/// The parts of sums and exclusive ors that a host shares with a peer.
fn pair_items(
    alloc: Global,
    key: &[u8; 32],
    me: u8,
    peer: u8,
    count: u32,
) -> Result<Items<PairItem>, AllocError>
    ensures { IfOk result (λ items. items ≡ first_of count (pair_item key.now me peer)) }
{
    let mut generator = stream(key, shared_stream(me, peer, 2));
    let mut items = Items::new(alloc);
    for _ in 0..count {
        items.push(part_of(me, peer, draw_pair(&mut generator)))?;
    }
    Ok(items)
}

/// Of the parts of two hosts, that of `me`.
fn part_of<T: Drop>(me: u8, peer: u8, parts: (T, T)) -> T
    ensures { result ≡ part_of me peer parts }
{
    let (first, second) = parts;
    if me < peer { first } else { second }
}

/// The stream of a kind of items that two hosts share.
fn shared_stream(me: u8, peer: u8, kind: u64) -> u64
    requires { kind < 3 }
    ensures { result ≡ shared_stream (min me peer) (max me peer) kind }
{
    let first = u64::from(me.min(peer));
    let second = u64::from(me.max(peer));
    64 + 16 * first + 4 * second + kind
}

/// The stream of the key, at its first word.
fn stream(key: &[u8; 32], number: u64) -> ChaCha20Rng
    ensures { IsAt result key.now number 0 }
{
    let mut generator = ChaCha20Rng::from_seed(*key);
    generator.set_stream(number);
    generator
}

/// Takes the next word of a stream.
fn draw(generator: &mut ChaCha20Rng) -> u32
    requires { generator.old.word_pos < 2 ^ 60 }
    ensures word { result ≡ word_at 10 generator.old.key generator.old.stream generator.old.word_pos }
    ensures next { generator.new ≡ stands_at generator.old (generator.old.word_pos + 1) }
{
    generator.next_word()
}

/// Takes the five words of a product, and gives both parts.
fn draw_mul(generator: &mut ChaCha20Rng) -> (Triple, Triple)
    requires { generator.old.word_pos < 2 ^ 50 }
    ensures parts { result ≡ mul_parts (words_at generator.old) }
    ensures next { generator.new ≡ stands_at generator.old (generator.old.word_pos + 5) }
{
    let (first, second) = draw_triples(generator);
    let (product, _) = mul_sides(first, second);
    let c = product.wrapping_sub(first.c);
    (first, Triple { c, ..second })
}

/// Takes the five words of a product of bits, and gives both parts.
fn draw_and(generator: &mut ChaCha20Rng) -> (Triple, Triple)
    requires { generator.old.word_pos < 2 ^ 50 }
    ensures parts { result ≡ and_parts (words_at generator.old) }
    ensures next { generator.new ≡ stands_at generator.old (generator.old.word_pos + 5) }
{
    let (first, second) = draw_triples(generator);
    let (product, _) = and_sides(first, second);
    let c = product ^ first.c;
    (first, Triple { c, ..second })
}

/// Takes five words; the last of the second part is still to be found.
fn draw_triples(generator: &mut ChaCha20Rng) -> (Triple, Triple)
    requires { generator.old.word_pos < 2 ^ 50 }
    ensures parts { result ≡ open_parts (words_at generator.old) }
    ensures next { generator.new ≡ stands_at generator.old (generator.old.word_pos + 5) }
{
    let a = draw(generator);
    let b = draw(generator);
    let c = draw(generator);
    let first = Triple { a, b, c };
    let a = draw(generator);
    let b = draw(generator);
    (first, Triple { a, b, c: 0 })
}

/// Takes the three words of a pair, and gives both parts.
fn draw_pair(generator: &mut ChaCha20Rng) -> (PairItem, PairItem)
    requires { generator.old.word_pos < 2 ^ 50 }
    ensures parts { result ≡ pair_parts (words_at generator.old) }
    ensures next { generator.new ≡ stands_at generator.old (generator.old.word_pos + 3) }
{
    let first_sum = draw(generator);
    let second_sum = draw(generator);
    let first = PairItem {
        s: first_sum,
        x: draw(generator),
    };
    let second = PairItem {
        s: second_sum,
        x: 0,
    };
    let (sum, _) = pair_sides(first, second);
    (
        first,
        PairItem {
            x: sum ^ first.x,
            ..second
        },
    )
}
