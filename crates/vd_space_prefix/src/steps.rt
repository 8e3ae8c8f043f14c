//! What arcs cost under a prefix, and what that grows by with a further choice.

ghost use Rattle.std.specs.Prelude.{◌≡◌, ◌≤◌, length, slice_get, slice_index_or, pos, ◌-ℤ◌};
ghost use Rattle.vd_space_prefix.specs.Steps.{AreArcs, IsArc, change, changes, under};
ghost use Rattle.vd_space_prefix.specs.Transfers.{ArePrices, IsWithin};

use crate::transfers::{Arc, amount_at, cost_at, number_of};
use vd_base::Items;

/// Where the slot stands, if it is decided.
pub(crate) fn decided(prefix: &[u32], slot: u32) -> Option<u32>
    ensures { result ≡ slice_get prefix.now slot }
{
    prefix.get(slot as usize).copied()
}

/// The least that the arc costs under the prefix.
fn cost_under(prices: &[Items<Option<u32>>], arc: &Arc, prefix: &[u32]) -> i64
    requires prices { ArePrices prices.now }
    requires arc { IsArc arc.now }
    ensures cost { result ≡ under prices.now arc.now prefix.now }
    ensures within { IsWithin 1125899906842624 result }
{
    let first = decided(prefix, arc.transfer.first);
    let second = decided(prefix, arc.transfer.second);
    match (first, second) {
        (None, None) => arc.both,
        (Some(place), None) => amount_at(arc.rows.as_slice(), place as usize),
        (None, Some(place)) => amount_at(arc.columns.as_slice(), place as usize),
        (Some(place), Some(other)) => number_of(cost_at(
            prices,
            &arc.transfer,
            place as usize,
            other as usize,
        )),
    }
}

/// What the arc with that number costs more under the one prefix than under the other.
fn change_of(
    prices: &[Items<Option<u32>>],
    arcs: &[Arc],
    number: u32,
    before: &[u32],
    after: &[u32],
) -> i64
    requires prices { ArePrices prices.now }
    requires arcs { AreArcs arcs.now }
    ensures change { result ≡ change prices.now arcs.now before.now after.now number }
    ensures within { IsWithin 2251799813685248 result }
{
    match arcs.get(number as usize) {
        Some(arc) => cost_under(prices, arc, after) - cost_under(prices, arc, before),
        None => 0,
    }
}

/// What the arcs with these numbers cost more under the one prefix than under the other.
pub(crate) fn growth_of(
    prices: &[Items<Option<u32>>],
    arcs: &[Arc],
    numbers: &[u32],
    before: &[u32],
    after: &[u32],
) -> i64
    requires prices { ArePrices prices.now }
    requires arcs { AreArcs arcs.now }
    requires few { length numbers.now ≤ 2048 }
    ensures growth { result ≡ changes prices.now arcs.now numbers.now before.now after.now }
    ensures within { IsWithin 4611686018427387904 result }
{
    let mut sum = 0;
    for number in numbers {
        sum += change_of(prices, arcs, *number, before, after);
    }
    sum
}
