//! What it costs to move a value between two slots, and the least of that where one of them or both are not decided.

ghost use Rattle.std.specs.Prelude.{◌≡◌, ◌*◌, ◌≤◌, ◌-ℤ◌, unwrap_or, IfOk, pos, slice_index_or};
ghost use Rattle.vd_base.specs.Limits.{most_weights};
ghost use Rattle.vd_space.specs.Bounds.{nothing_left, only_if};
ghost use Rattle.vd_space_prefix.specs.Transfers.{ArePrices, IsTransfer, IsWithin, by_place, cell, column_of, least_where, arc_of, priced, row_of, square_of, taken};

use std::alloc::{AllocError, Global};
use vd_base::Items;
use vd_space::lesser_of;

/// A value that is moved between two slots: how often, and what shifts take from its cost by the place of the protocol on
/// either side.
#[derive(Drop)]
pub struct Transfer {
    pub first: u32,
    pub second: u32,
    pub weight: u32,
    pub from: Items<i64>,
    pub to: Items<i64>,
}

/// A transfer, and what it costs at least: by the place of the first slot where the second is not decided, by the place of
/// the second where the first is not, and where neither is.
#[derive(Drop)]
pub struct Arc {
    pub transfer: Transfer,
    pub rows: Items<i64>,
    pub columns: Items<i64>,
    pub both: i64,
}

/// What a term with nothing left counts.
const NOTHING_LEFT: i64 = 1_000_000_000;

/// The price at two places, if they join.
fn price_at(prices: &[Items<Option<u32>>], first: usize, second: usize) -> Option<u32>
    ensures { result ≡ priced prices.now first second }
{
    match prices.get(first) {
        Some(row) => match row.as_slice().get(second) {
            Some(price) => *price,
            None => None,
        },
        None => None,
    }
}

/// What shifts take at a place.
pub fn amount_at(amounts: &[i64], place: usize) -> i64
    ensures { result ≡ slice_index_or amounts.now place (pos 0) }
{
    match amounts.get(place) {
        Some(amount) => *amount,
        None => 0,
    }
}

/// The two amounts, together.
fn taken_at(transfer: &Transfer, first: usize, second: usize) -> i64
    requires { IsTransfer transfer.now }
    ensures { result ≡ taken transfer.now first second }
{
    amount_at(transfer.from.as_slice(), first) + amount_at(transfer.to.as_slice(), second)
}

/// So often the price, less what is taken.
fn weighed(weight: u32, price: u32, less: i64) -> i64
    requires weight { weight ≤ most_weights }
    requires price { price ≤ 848 }
    requires less { IsWithin 562949953421312 less }
    ensures { result ≡ pos (weight * price) -ℤ less }
{
    i64::from(weight * price) - less
}

/// What the transfer costs at two places, if they join.
pub(crate) fn cost_at(
    prices: &[Items<Option<u32>>],
    transfer: &Transfer,
    first: usize,
    second: usize,
) -> Option<i64>
    requires prices { ArePrices prices.now }
    requires transfer { IsTransfer transfer.now }
    ensures { result ≡ cell prices.now transfer.now first second }
{
    let taken = taken_at(transfer, first, second);
    match price_at(prices, first, second) {
        Some(price) => Some(weighed(transfer.weight, price, taken)),
        None => None,
    }
}

/// What the transfer costs at two places, if they join and the test passes.
fn cost_if(
    test: bool,
    prices: &[Items<Option<u32>>],
    transfer: &Transfer,
    first: usize,
    second: usize,
) -> Option<i64>
    requires prices { ArePrices prices.now }
    requires transfer { IsTransfer transfer.now }
    ensures { result ≡ only_if test (cell prices.now transfer.now first second) }
{
    if test {
        cost_at(prices, transfer, first, second)
    } else {
        None
    }
}

/// The least cost from a place of the first slot.
fn least_in_row(
    prices: &[Items<Option<u32>>],
    transfer: &Transfer,
    seconds: &[bool],
    first: usize,
) -> Option<i64>
    requires prices { ArePrices prices.now }
    requires transfer { IsTransfer transfer.now }
    ensures { result ≡ row_of prices.now transfer.now seconds.now first }
{
    let mut least = None;
    for (second, test) in seconds.iter().enumerate() {
        least = lesser_of(least, cost_if(*test, prices, transfer, first, second));
    }
    least
}

/// The least cost to a place of the second slot.
fn least_in_column(
    prices: &[Items<Option<u32>>],
    transfer: &Transfer,
    firsts: &[bool],
    second: usize,
) -> Option<i64>
    requires prices { ArePrices prices.now }
    requires transfer { IsTransfer transfer.now }
    ensures { result ≡ column_of prices.now transfer.now firsts.now second }
{
    let mut least = None;
    for (first, test) in firsts.iter().enumerate() {
        least = lesser_of(least, cost_if(*test, prices, transfer, first, second));
    }
    least
}

/// The least cost from a place of the first slot, if the test passes.
fn row_if(
    test: bool,
    prices: &[Items<Option<u32>>],
    transfer: &Transfer,
    seconds: &[bool],
    first: usize,
) -> Option<i64>
    requires prices { ArePrices prices.now }
    requires transfer { IsTransfer transfer.now }
    ensures { result ≡ only_if test (row_of prices.now transfer.now seconds.now first) }
{
    if test {
        least_in_row(prices, transfer, seconds, first)
    } else {
        None
    }
}

/// The least cost of all.
fn least_of_all(
    prices: &[Items<Option<u32>>],
    transfer: &Transfer,
    firsts: &[bool],
    seconds: &[bool],
) -> Option<i64>
    requires prices { ArePrices prices.now }
    requires transfer { IsTransfer transfer.now }
    ensures { result ≡ square_of prices.now transfer.now firsts.now seconds.now }
{
    let mut least = None;
    for (first, test) in firsts.iter().enumerate() {
        least = lesser_of(least, row_if(*test, prices, transfer, seconds, first));
    }
    least
}

/// The number, or what a term with nothing left counts.
pub fn number_of(least: Option<i64>) -> i64
    ensures { result ≡ unwrap_or least nothing_left }
{
    match least {
        Some(number) => number,
        None => NOTHING_LEFT,
    }
}

/// The least costs from the places of the first slot.
fn rows(
    alloc: Global,
    prices: &[Items<Option<u32>>],
    transfer: &Transfer,
    firsts: usize,
    seconds: &[bool],
) -> Result<Items<i64>, AllocError>
    requires prices { ArePrices prices.now }
    requires transfer { IsTransfer transfer.now }
    ensures { IfOk result (λ rows. rows ≡ by_place firsts (λ p. unwrap_or (row_of prices.now transfer.now seconds.now p) nothing_left)) }
{
    let mut rows = Items::new(alloc);
    for first in 0..firsts {
        rows.push(number_of(least_in_row(prices, transfer, seconds, first)))?;
    }
    Ok(rows)
}

/// The least costs to the places of the second slot.
fn columns(
    alloc: Global,
    prices: &[Items<Option<u32>>],
    transfer: &Transfer,
    firsts: &[bool],
    seconds: usize,
) -> Result<Items<i64>, AllocError>
    requires prices { ArePrices prices.now }
    requires transfer { IsTransfer transfer.now }
    ensures { IfOk result (λ columns. columns ≡ by_place seconds (λ q. unwrap_or (column_of prices.now transfer.now firsts.now q)
        nothing_left)) }
{
    let mut columns = Items::new(alloc);
    for second in 0..seconds {
        columns.push(number_of(least_in_column(prices, transfer, firsts, second)))?;
    }
    Ok(columns)
}

impl Arc {
    /// The transfer with its least costs, where the slots may stand at the places that pass.
    pub fn of(
        alloc: Global,
        prices: &[Items<Option<u32>>],
        transfer: Transfer,
        firsts: &[bool],
        seconds: &[bool],
    ) -> Result<Arc, AllocError>
        requires prices { ArePrices prices.now }
        requires transfer { IsTransfer transfer }
        ensures { IfOk result (λ arc. arc ≡ arc_of prices.now transfer firsts.now seconds.now) }
    {
        let rows = rows(alloc, prices, &transfer, firsts.len(), seconds)?;
        let columns = columns(alloc, prices, &transfer, firsts, seconds.len())?;
        let both = number_of(least_of_all(prices, &transfer, firsts, seconds));
        Ok(Arc {
            transfer,
            rows,
            columns,
            both,
        })
    }
}
