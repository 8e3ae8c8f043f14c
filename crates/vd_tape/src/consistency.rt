//! Whether deals keep the identities.

ghost use Rattle.std.specs.Prelude.{◌≡◌, ℕ, ◌≤◌, MatchResult};
ghost use Rattle.vd_base.specs.Limits.{most_deal_items};
ghost use Rattle.vd_tape.specs.declared.deal_items.deal.DealKind.{DealKind};
ghost use Rattle.vd_tape.specs.Identities.{triple_at, pair_at};
ghost use Rattle.vd_tape.specs.Validity.{IsDeal, AreDeals, IsConsistent, IsFirstBad, Meets, sides, shared_with};
ghost use Rattle.vd_tape.specs.Consistency.{IsFirstBroken, IsFirstOfTwo};

use crate::deal_items::{
    BadItem, Deal, DealKind, Deals, PairItem, Triple, and_sides, mul_sides, pair_sides,
};
use vd_base::{HostId, Items};

/// Whether each item of each two hosts meets its identity, each list being followed by zero items; else the first that breaks it.
///
/// The deals are those of all hosts, in order. Takes no memory.
pub fn consistent(deals: &Deals) -> Result<(), BadItem>
    requires { AreDeals deals.now }
    ensures { MatchResult result (λ _. IsConsistent deals.now) (λ bad. IsFirstBad deals.now bad) }
{
    let deals = deals.as_slice();
    for first in 0..deals.len() {
        for second in first + 1..deals.len() {
            check_two(&deals[first], &deals[second])?;
        }
    }
    Ok(())
}

/// Whether each item that two hosts share meets its identity.
fn check_two(first: &Deal, second: &Deal) -> Result<(), BadItem>
    requires first { IsDeal first.now }
    requires second { IsDeal second.now }
    ensures { MatchResult result
        (λ _. (kind : DealKind) (i : ℕ) → Meets first.now second.now kind i)
        (λ bad. IsFirstOfTwo first.now second.now bad) }
{
    check_kind(first, second, DealKind::Mul)?;
    check_kind(first, second, DealKind::And)?;
    check_kind(first, second, DealKind::Pair)
}

/// Whether each item of a kind that two hosts share meets its identity.
fn check_kind(first: &Deal, second: &Deal, kind: DealKind) -> Result<(), BadItem>
    requires first { IsDeal first.now }
    requires second { IsDeal second.now }
    ensures { MatchResult result
        (λ _. (i : ℕ) → Meets first.now second.now kind i)
        (λ bad. IsFirstBroken first.now second.now kind bad) }
{
    for place in 0..shared_count(first, second, kind) {
        let (left, right) = sides_at(first, second, kind, place);
        if left != right {
            return Err(BadItem {
                kind,
                first: first.me,
                second: second.me,
                index: place as u32,
                left,
                right,
            });
        }
    }
    Ok(())
}

/// The places of a kind at which one of two hosts has an item.
fn shared_count(first: &Deal, second: &Deal, kind: DealKind) -> usize
    requires first { IsDeal first.now }
    requires second { IsDeal second.now }
    ensures few { result ≤ most_deal_items }
    ensures behind { (i : ℕ) → result ≤ i → Meets first.now second.now kind i }
{
    let (p, q) = (first.me, second.me);
    match kind {
        DealKind::Own => 0,
        DealKind::Mul => shared(&first.triples, p, q)
            .len()
            .max(shared(&second.triples, q, p).len()),
        DealKind::And => shared(&first.bits, p, q)
            .len()
            .max(shared(&second.bits, q, p).len()),
        DealKind::Pair => shared(&first.pairs, p, q)
            .len()
            .max(shared(&second.pairs, q, p).len()),
    }
}

/// The two sides of the identity of an item.
fn sides_at(first: &Deal, second: &Deal, kind: DealKind, place: usize) -> (u32, u32)
    ensures { result ≡ sides first.now second.now kind place }
{
    let (p, q) = (first.me, second.me);
    match kind {
        DealKind::Own => (0, 0),
        DealKind::Mul => mul_sides(
            triple_at(shared(&first.triples, p, q), place),
            triple_at(shared(&second.triples, q, p), place),
        ),
        DealKind::And => and_sides(
            triple_at(shared(&first.bits, p, q), place),
            triple_at(shared(&second.bits, q, p), place),
        ),
        DealKind::Pair => pair_sides(
            pair_at(shared(&first.pairs, p, q), place),
            pair_at(shared(&second.pairs, q, p), place),
        ),
    }
}

/// The list that a host shares with a peer.
fn shared<T>(lists: &Items<Items<T>>, me: HostId, peer: HostId) -> &[T]
    ensures { result.now ≡ shared_with lists.now me.0 peer.0 }
{
    let place = if peer.0 < me.0 {
        usize::from(peer.0)
    } else {
        usize::from(peer.0).saturating_sub(1)
    };
    match lists.as_slice().get(place) {
        Some(items) => items.as_slice(),
        None => &[],
    }
}

/// The item at a place, or a zero item behind the last.
fn triple_at(items: &[Triple], place: usize) -> Triple
    ensures { result ≡ triple_at items.now place }
{
    items
        .get(place)
        .copied()
        .unwrap_or(Triple { a: 0, b: 0, c: 0 })
}

/// The item at a place, or a zero item behind the last.
fn pair_at(items: &[PairItem], place: usize) -> PairItem
    ensures { result ≡ pair_at items.now place }
{
    items.get(place).copied().unwrap_or(PairItem { s: 0, x: 0 })
}
