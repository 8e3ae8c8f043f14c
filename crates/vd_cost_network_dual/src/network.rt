//! Points and the arcs between them, as points see them. Each point is named by its place in the order of sweeps.

use crate::numbers::INFINITE_COST;
use crate::order::Order;
use std::alloc::{AllocError, Global};
use vd_cost_network_prefix::ArcTable;

#[derive(Clone, Copy, PartialEq, Eq)]
pub enum Side {
    First,
    Second,
}

/// One end of an arc.
#[derive(Clone, Copy, PartialEq, Eq)]
pub struct End {
    /// The number of the arc.
    pub at: usize,
    pub side: Side,
    /// The point at this end.
    pub point: usize,
    /// The point at the other end.
    pub other: usize,
}

impl End {
    /// The other end.
    pub fn turned(self) -> End {
        let side = match self.side {
            Side::First => Side::Second,
            Side::Second => Side::First,
        };
        End {
            side,
            point: self.other,
            other: self.point,
            ..self
        }
    }

    /// Whether the other point comes later on the way.
    pub(crate) fn is_ahead(self, forward: bool) -> bool {
        (self.other > self.point) == forward
    }

    /// What the arc costs where this end is at one setting and the other at another; `INFINITE_COST` where these do not join.
    pub fn price(self, arcs: &[ArcTable], here: usize, there: usize) -> i64 {
        match arcs.get(self.at) {
            Some(arc) => match self.side {
                Side::First => cell(arc, here, there),
                Side::Second => cell(arc, there, here),
            },
            None => INFINITE_COST,
        }
    }
}

/// What an arc costs at these settings; `INFINITE_COST` where they do not join.
fn cell(arc: &ArcTable, first: usize, second: usize) -> i64 {
    match arc.cells.as_slice().get(first) {
        Some(row) => match row.as_slice().get(second) {
            Some(Some(cost)) => *cost,
            _ => INFINITE_COST,
        },
        None => INFINITE_COST,
    }
}

/// The arcs: the first ends of all, and for each point its ends of them, by number.
#[derive(Drop)]
pub struct Network {
    pub firsts: Vec<End>,
    pub by_point: Vec<Vec<End>>,
    /// Of these the ends of arcs to points that come earlier, and those to points that come later.
    earlier: Vec<Vec<End>>,
    later: Vec<Vec<End>>,
}

impl Network {
    pub(crate) fn of(
        alloc: Global,
        arcs: &[ArcTable],
        order: &Order,
    ) -> Result<Network, AllocError> {
        let points = order.points.len();
        let mut network = Network {
            firsts: Vec::with_capacity(alloc, arcs.len())?,
            by_point: no_ends(alloc, points)?,
            earlier: no_ends(alloc, points)?,
            later: no_ends(alloc, points)?,
        };
        for (at, arc) in arcs.iter().enumerate() {
            let first = End {
                at,
                side: Side::First,
                point: order.rank(arc.first),
                other: order.rank(arc.second),
            };
            network.firsts.push(first)?;
            network.put(first)?;
            network.put(first.turned())?;
        }
        Ok(network)
    }

    /// Puts an end of an arc to those of its point.
    fn put(&mut self, end: End) -> Result<(), AllocError> {
        push_at(&mut self.by_point, end)?;
        if end.is_ahead(true) {
            push_at(&mut self.later, end)
        } else {
            push_at(&mut self.earlier, end)
        }
    }

    /// The ends of arcs that a point has.
    pub fn of_point(&self, point: usize) -> &[End] {
        ends_at(self.by_point.as_slice(), point)
    }

    /// Those of arcs to points that come later on the way.
    pub(crate) fn ahead(&self, point: usize, forward: bool) -> &[End] {
        if forward {
            ends_at(self.later.as_slice(), point)
        } else {
            ends_at(self.earlier.as_slice(), point)
        }
    }
}

/// No ends of so many points.
fn no_ends(alloc: Global, points: usize) -> Result<Vec<Vec<End>>, AllocError> {
    let mut rows = Vec::with_capacity(alloc, points)?;
    for _ in 0..points {
        rows.push(Vec::new(alloc))?;
    }
    Ok(rows)
}

/// Puts an end to those of its point, if there is such a point.
fn push_at(rows: &mut Vec<Vec<End>>, end: End) -> Result<(), AllocError> {
    if end.point < rows.len() {
        rows[end.point].push(end)?;
    }
    Ok(())
}

/// The ends of a point, which are none past the end.
fn ends_at(rows: &[Vec<End>], point: usize) -> &[End] {
    match rows.get(point) {
        Some(ends) => ends.as_slice(),
        None => &[],
    }
}
