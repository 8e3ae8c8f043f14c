//! Rows of numbers by the place of a protocol in the list: what a slot must cost there, or that it cannot stand there.

ghost use Rattle.std.specs.Prelude.{◌≡◌, ℕ, ◌+◌, ◌*◌, ◌<◌, ◌≤◌, None, length, option_map, slice_index_or, unwrap_or, IfOk};
ghost use Rattle.vd_base.specs.Moves.{move_at};
ghost use Rattle.vd_space_api.specs.Rows.{amounts_of, emptied_of, given_at, given_by_place, given_from, givens_of, lesser_number, raised_of, weighed};

use std::alloc::{AllocError, Global};
use vd_base::{Items, Proto};
use vd_cost::move_cost;
use vd_protocol::joins;

/// So often the price, which is of 64 bits.
pub(crate) fn product(weight: u32, price: u32) -> u64
    ensures value { result ≡ weight * price }
    ensures fits { result ≤ 18446744065119617025 }
{
    u64::from(weight) * u64::from(price)
}

/// What it costs to move a value between two protocols so often, if they join.
pub fn price(weight: u32, from: Proto, to: Proto) -> Option<u64>
    ensures value { result ≡ weighed weight (move_at from to) }
    ensures fits { unwrap_or result 0 ≤ 18446744065119617025 }
{
    if joins(from, to) {
        Some(product(weight, move_cost(from, to)))
    } else {
        None
    }
}

/// The amounts of a row, and 0 where there is none.
pub(crate) fn amounts(alloc: Global, row: &[Option<u64>]) -> Result<Items<u64>, AllocError>
    ensures { IfOk result (λ amounts. amounts ≡ amounts_of row.now) }
{
    let mut amounts = Items::new(alloc);
    for term in row {
        amounts.push(term.unwrap_or(0))?;
    }
    Ok(amounts)
}

/// The row with 0 for each amount.
pub(crate) fn emptied(alloc: Global, row: &[Option<u64>]) -> Result<Items<Option<u64>>, AllocError>
    ensures { IfOk result (λ emptied. emptied ≡ emptied_of row.now) }
{
    let mut emptied = Items::new(alloc);
    for term in row {
        emptied.push(term.map(|_| 0))?;
    }
    Ok(emptied)
}

/// An amount of a list, and 0 past its end.
fn amount_at(amounts: &[u64], place: usize) -> u64
    ensures { result ≡ slice_index_or amounts.now place 0 }
{
    match amounts.get(place) {
        Some(amount) => *amount,
        None => 0,
    }
}

/// The term with the amount besides, where there is a term.
fn raised_term(term: Option<u64>, amount: u64) -> Option<u64>
    requires term { unwrap_or term 0 < 4294967296 }
    requires amount { amount < 4294967296 }
    ensures { result ≡ option_map (λ v. v + amount) term }
{
    match term {
        Some(number) => Some(number + amount),
        None => None,
    }
}

/// The row with each amount besides.
pub(crate) fn raised(
    alloc: Global,
    row: &[Option<u64>],
    amounts: &[u64],
) -> Result<Items<Option<u64>>, AllocError>
    requires row { (p : ℕ) → unwrap_or (slice_index_or row.now p None) 0 < 4294967296 }
    requires amounts { (p : ℕ) → slice_index_or amounts.now p 0 < 4294967296 }
    ensures { IfOk result (λ raised. raised ≡ raised_of row.now amounts.now) }
{
    let mut raised = Items::new(alloc);
    for place in 0..row.len() {
        raised.push(raised_term(row[place], amount_at(amounts, place)))?;
    }
    Ok(raised)
}

/// The lesser of two numbers, each of which may be left out.
pub fn lesser_number(first: Option<u64>, second: Option<u64>) -> Option<u64>
    ensures { result ≡ lesser_number first second }
{
    match (first, second) {
        (None, other) => other,
        (Some(number), None) => Some(number),
        (Some(number), Some(other)) => Some(number.min(other)),
    }
}

/// What a use costs between two places, with what its target hands on there; nothing where the target cannot stand.
fn given_at(
    list: &[Proto],
    weight: u32,
    targets: &[bool],
    taken: &[u64],
    from: Proto,
    place: usize,
) -> Option<u64>
    requires place { place < length list.now }
    requires taken { (q : ℕ) → slice_index_or taken.now q 0 < 4294967296 }
    ensures { result ≡ given_at list.now weight targets.now taken.now from place }
{
    if place >= targets.len() || !targets[place] {
        return None;
    }
    let amount = amount_at(taken, place);
    match price(weight, from, list[place]) {
        Some(price) => Some(price + amount),
        None => None,
    }
}

/// The least that a use costs from a protocol, with what its target hands on.
fn given_from(
    list: &[Proto],
    weight: u32,
    targets: &[bool],
    taken: &[u64],
    from: Proto,
) -> Option<u64>
    requires taken { (q : ℕ) → slice_index_or taken.now q 0 < 4294967296 }
    ensures { result ≡ given_from list.now weight targets.now taken.now from }
{
    let mut least = None;
    for place in 0..list.len() {
        least = lesser_number(least, given_at(list, weight, targets, taken, from, place));
    }
    least
}

/// The same from a place of the source, and 0 where it cannot stand or there is none.
fn given_by_place(
    list: &[Proto],
    weight: u32,
    sources: &[bool],
    targets: &[bool],
    taken: &[u64],
    place: usize,
) -> u64
    requires place { place < length list.now }
    requires sources { length sources.now ≡ length list.now }
    requires taken { (q : ℕ) → slice_index_or taken.now q 0 < 4294967296 }
    ensures { result ≡ given_by_place list.now weight sources.now targets.now taken.now place }
{
    if !sources[place] {
        return 0;
    }
    given_from(list, weight, targets, taken, list[place]).unwrap_or(0)
}

/// The least that a use costs from each place at which its source can stand, with what its target hands on.
pub(crate) fn givens(
    alloc: Global,
    list: &[Proto],
    weight: u32,
    sources: &[bool],
    targets: &[bool],
    taken: &[u64],
) -> Result<Items<u64>, AllocError>
    requires sources { length sources.now ≡ length list.now }
    requires taken { (q : ℕ) → slice_index_or taken.now q 0 < 4294967296 }
    ensures { IfOk result (λ givens. givens ≡ givens_of list.now weight sources.now targets.now taken.now) }
{
    let mut givens = Items::new(alloc);
    for place in 0..list.len() {
        givens.push(given_by_place(list, weight, sources, targets, taken, place))?;
    }
    Ok(givens)
}
