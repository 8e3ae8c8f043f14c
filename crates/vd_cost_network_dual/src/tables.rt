//! What points and arcs cost by the settings that are left, in steps: parts of a unit, or so many bits more where costs are great.

use crate::network::{End, Network, Side};
use crate::numbers::{INFINITE_COST, INFINITE_STEPS, SMALL, add_small, nearest_small, settings_at};
use crate::order::Order;
use std::alloc::{AllocError, Global};
use vd_cost_network_prefix::{ArcTable, NetworkTables, PointTable};

/// A step has at most so many bits more than a part of a unit: more than the limits of sources ever ask for.
const MOST_BITS: u32 = 32;

/// What an arc costs by the settings that are left at both ends: a row for each setting at one end, with `INFINITE_STEPS` where two
/// settings do not join.
#[derive(Drop)]
struct Prices {
    by_first: Vec<Vec<i32>>,
    by_second: Vec<Vec<i32>>,
}

impl Prices {
    /// The rows for the settings at this end.
    fn rows(&self, side: Side) -> &[Vec<i32>] {
        match side {
            Side::First => self.by_first.as_slice(),
            Side::Second => self.by_second.as_slice(),
        }
    }

    /// Whether these are the same.
    fn are(&self, by_first: &Vec<Vec<i32>>, by_second: &Vec<Vec<i32>>) -> bool {
        self.by_first == *by_first && self.by_second == *by_second
    }
}

#[derive(Drop)]
pub struct Tables {
    /// So many bits a step is more than a part of a unit.
    pub bits: u32,
    /// By point and setting.
    pub costs: Vec<Vec<i32>>,
    /// What arcs cost, each once.
    prices: Vec<Prices>,
    /// By arc: the number of its prices.
    kinds: Vec<usize>,
}

impl Tables {
    /// The tables for the settings that are left for each point, by those without shifts, where a step is at least so many bits more
    /// than a part.
    pub fn of(
        alloc: Global,
        tables: &NetworkTables,
        network: &Network,
        order: &Order,
        settings: &[Vec<usize>],
        least_bits: u32,
    ) -> Result<Tables, AllocError> {
        let points = tables.points.as_slice();
        let arcs = tables.arcs.as_slice();
        let bits = bits_of(greatest_sum(points, arcs, network, order, settings)).max(least_bits);
        let mut costs = Vec::new(alloc);
        for (point, left) in order.points.iter().zip(settings) {
            costs.push(costs_of(alloc, points, *point, left.as_slice(), bits)?)?;
        }
        let mut prices = Vec::new(alloc);
        let mut kinds = Vec::new(alloc);
        for first in &network.firsts {
            let by_first = rows_of(alloc, arcs, *first, settings, bits)?;
            let by_second = rows_of(alloc, arcs, first.turned(), settings, bits)?;
            kinds.push(kind_of(&mut prices, by_first, by_second)?)?;
        }
        Ok(Tables {
            bits,
            costs,
            prices,
            kinds,
        })
    }

    /// Makes a point cost more at a setting.
    pub fn raise(&mut self, point: usize, setting: usize, amount: i32) {
        if point < self.costs.len() {
            add_small(&mut self.costs[point], setting, amount);
        }
    }

    /// What an arc costs, with a row for each setting at this end.
    pub fn rows(&self, end: End) -> &[Vec<i32>] {
        match self.prices_of(end) {
            Some(prices) => prices.rows(end.side),
            None => &[],
        }
    }

    /// The prices of an arc.
    fn prices_of(&self, end: End) -> Option<&Prices> {
        self.prices.get(*self.kinds.get(end.at)?)
    }
}

/// The number of the prices with these rows among those that are there, to which they are added if they are new.
fn kind_of(
    prices: &mut Vec<Prices>,
    by_first: Vec<Vec<i32>>,
    by_second: Vec<Vec<i32>>,
) -> Result<usize, AllocError> {
    for (number, known) in prices.iter().enumerate() {
        if known.are(&by_first, &by_second) {
            return Ok(number);
        }
    }
    prices.push(Prices {
        by_first,
        by_second,
    })?;
    Ok(prices.len() - 1)
}

/// How many bits a step is more than a part, so that no sum is too great that is at most this one in parts.
fn bits_of(greatest: i64) -> u32 {
    for bits in 0..MOST_BITS {
        if greatest.wrapping_shr(bits) <= SMALL {
            return bits;
        }
    }
    MOST_BITS
}

/// The sum of what each point and each arc costs at most where it can be.
fn greatest_sum(
    points: &[PointTable],
    arcs: &[ArcTable],
    network: &Network,
    order: &Order,
    settings: &[Vec<usize>],
) -> i64 {
    let mut sum: i64 = 0;
    for (point, left) in order.points.iter().zip(settings) {
        sum = sum.saturating_add(greatest_cost(points, *point, left.as_slice()));
    }
    for first in &network.firsts {
        sum = sum.saturating_add(greatest_price(arcs, *first, settings));
    }
    sum
}

/// What a point costs at most at settings that are left.
fn greatest_cost(points: &[PointTable], point: usize, left: &[usize]) -> i64 {
    let mut greatest = 0;
    for setting in left {
        let cost = cost_at(points, point, *setting);
        if cost < INFINITE_COST {
            greatest = cost.max(greatest);
        }
    }
    greatest
}

/// What an arc costs at most at settings that are left and join.
fn greatest_price(arcs: &[ArcTable], end: End, settings: &[Vec<usize>]) -> i64 {
    let partners = settings_at(settings, end.other);
    let mut greatest = 0;
    for here in settings_at(settings, end.point) {
        for there in partners {
            let price = end.price(arcs, *here, *there);
            if price < INFINITE_COST {
                greatest = price.max(greatest);
            }
        }
    }
    greatest
}

/// A cost or a price in steps.
fn in_steps(amount: i64, bits: u32) -> i32 {
    if amount < INFINITE_COST {
        nearest_small(amount.wrapping_shr(bits))
    } else {
        INFINITE_STEPS
    }
}

/// What a point costs at a setting, in parts.
fn cost_at(points: &[PointTable], point: usize, setting: usize) -> i64 {
    match points.get(point) {
        Some(table) => match table.costs.as_slice().get(setting) {
            Some(cost) => *cost,
            None => INFINITE_COST,
        },
        None => INFINITE_COST,
    }
}

/// What a point costs at the settings that are left.
fn costs_of(
    alloc: Global,
    points: &[PointTable],
    point: usize,
    left: &[usize],
    bits: u32,
) -> Result<Vec<i32>, AllocError> {
    let mut costs = Vec::new(alloc);
    for setting in left {
        costs.push(in_steps(cost_at(points, point, *setting), bits))?;
    }
    Ok(costs)
}

/// What an arc costs, with a row for each setting at this end.
fn rows_of(
    alloc: Global,
    arcs: &[ArcTable],
    end: End,
    settings: &[Vec<usize>],
    bits: u32,
) -> Result<Vec<Vec<i32>>, AllocError> {
    let partners = settings_at(settings, end.other);
    let mut rows = Vec::new(alloc);
    for here in settings_at(settings, end.point) {
        rows.push(row_from(alloc, arcs, end, *here, partners, bits)?)?;
    }
    Ok(rows)
}

/// What an arc costs from a setting at this end to those at the other.
fn row_from(
    alloc: Global,
    arcs: &[ArcTable],
    end: End,
    here: usize,
    partners: &[usize],
    bits: u32,
) -> Result<Vec<i32>, AllocError> {
    let mut row = Vec::with_capacity(alloc, partners.len())?;
    for there in partners {
        row.push(in_steps(end.price(arcs, here, *there), bits))?;
    }
    Ok(row)
}
