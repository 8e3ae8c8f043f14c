//! The messages that sweeps one way carry over the arcs.

use crate::network::{End, Network};
use crate::numbers::{
    add_small, nearest_small, number_at, put, small_at, small_row_at, small_zeros,
};
use crate::splitter::{Splitter, share_of};
use crate::tables::Tables;
use std::alloc::{AllocError, Global};

/// What sweeps one way carry over an arc, from the point on the near side of it to the one on the far side.
#[derive(Drop)]
struct Carried {
    /// What is put on the near point and taken from the arc, by the settings of that point.
    held: Vec<i32>,
    /// What the arc then costs at least, by the settings of the far point.
    told: Vec<i32>,
}

impl Carried {
    /// Nothing is held by so many settings of the near point, and nothing told yet to so many of the far one.
    fn nothing(alloc: Global, near: usize, far: usize) -> Result<Carried, AllocError> {
        Ok(Carried {
            held: small_zeros(alloc, near)?,
            told: small_zeros(alloc, far)?,
        })
    }

    /// How many prices the arc has.
    fn prices(&self) -> u64 {
        self.held.len().saturating_mul(self.told.len()) as u64
    }

    /// Holds what the arc costs at least by the settings of the near point, less the share of a turn. Answers whether that is
    /// another amount than before at some setting.
    fn hold(&mut self, costs: &[i32], splitter: &Splitter, turn: i32) -> bool {
        let mut changes = 0;
        let parts = splitter.parts.iter().zip(splitter.more.as_slice());
        for ((held, cost), (part, more)) in self.held.iter_mut().zip(costs).zip(parts) {
            let rest = cost.wrapping_sub(share_of(*part, *more, turn));
            changes |= *held ^ rest;
            *held = rest;
        }
        changes != 0
    }

    /// Holds less, by the share of a turn. Answers whether that is less at some setting.
    fn lower(&mut self, splitter: &Splitter, turn: i32) -> bool {
        let mut changes = 0;
        let parts = splitter.parts.iter().zip(splitter.more.as_slice());
        for (held, (part, more)) in self.held.iter_mut().zip(parts) {
            let rest = held.wrapping_sub(share_of(*part, *more, turn));
            changes |= *held ^ rest;
            *held = rest;
        }
        changes != 0
    }

    /// Computes what is told of what is held, where the far point is at this end of the arc, and changes by that what all arcs
    /// tell that point. Answers whether it is another amount than before at some setting.
    fn tell(&mut self, tables: &Tables, end: End, incoming: &mut Vec<i32>) -> bool {
        let by_near = tables.rows(end.turned());
        if by_near.len() == 2 {
            self.tell_of_two(by_near[0].as_slice(), by_near[1].as_slice(), incoming)
        } else {
            self.tell_of_all(tables.rows(end), incoming)
        }
    }

    /// The same by what the arc costs from either of the two settings of the near point.
    fn tell_of_two(&mut self, first: &[i32], second: &[i32], incoming: &mut Vec<i32>) -> bool {
        let from_first = small_at(self.held.as_slice(), 0);
        let from_second = small_at(self.held.as_slice(), 1);
        let prices = first.iter().zip(second);
        let mut changes = 0;
        for (place, (told, (one, other))) in self.told.iter_mut().zip(prices).enumerate() {
            let least = one
                .wrapping_sub(from_first)
                .min(other.wrapping_sub(from_second));
            let more = least.wrapping_sub(*told);
            changes |= more;
            *told = least;
            add_small(incoming, place, more);
        }
        changes != 0
    }

    /// The same by what the arc costs, with a row for each setting of the far point.
    fn tell_of_all(&mut self, rows: &[Vec<i32>], incoming: &mut Vec<i32>) -> bool {
        let mut changes = 0;
        for (place, (told, prices)) in self.told.iter_mut().zip(rows).enumerate() {
            let least = least_after(prices.as_slice(), self.held.as_slice());
            let more = least.wrapping_sub(*told);
            changes |= more;
            *told = least;
            add_small(incoming, place, more);
        }
        changes != 0
    }
}

/// The least of the prices, less what is held.
fn least_after(prices: &[i32], held: &[i32]) -> i32 {
    let mut least = i32::MAX;
    for (price, amount) in prices.iter().zip(held) {
        least = least.min(price.wrapping_sub(*amount));
    }
    least
}

/// The messages of sweeps one way: what they carry over all arcs.
#[derive(Drop)]
pub(crate) struct Messages {
    arcs: Vec<Carried>,
    /// By point, and then by its settings: what all arcs tell it together.
    incoming: Vec<Vec<i32>>,
    /// By point: the least that it costs with what it is told and what it holds.
    leasts: Vec<i32>,
    /// The sum of these. No list costs less.
    pub bound: i64,
    /// How much was computed: a price of an arc that is looked at counts 1.
    pub work: u64,
    /// By point: whether what it costs or is told has changed since it was visited.
    is_waiting: Vec<bool>,
}

impl Messages {
    /// Nothing is held anywhere, and all points wait.
    pub fn nothing(
        alloc: Global,
        tables: &Tables,
        network: &Network,
        forward: bool,
    ) -> Result<Messages, AllocError> {
        let mut arcs = Vec::with_capacity(alloc, network.firsts.len())?;
        let mut incoming = Vec::with_capacity(alloc, tables.costs.len())?;
        for costs in &tables.costs {
            incoming.push(small_zeros(alloc, costs.len())?)?;
        }
        for first in &network.firsts {
            let near = if first.is_ahead(forward) {
                *first
            } else {
                first.turned()
            };
            let far = near.turned();
            let near_count = tables.rows(near).len();
            let far_count = tables.rows(far).len();
            let mut carried = Carried::nothing(alloc, near_count, far_count)?;
            if far.point < incoming.len() {
                carried.tell(tables, far, &mut incoming[far.point]);
            }
            arcs.push(carried)?;
        }
        let points = network.by_point.len();
        Ok(Messages {
            arcs,
            incoming,
            leasts: small_zeros(alloc, points)?,
            bound: 0,
            work: 0,
            is_waiting: vec![in alloc; true; points]?,
        })
    }

    /// Takes a point that waits. Answers whether it waited.
    pub fn take(&mut self, point: usize) -> bool {
        let waited = self.is_waiting.get(point) == Some(&true);
        self.set_waiting(point, false);
        waited
    }

    /// Lets a point wait.
    pub fn wake(&mut self, point: usize) {
        self.set_waiting(point, true);
    }

    fn set_waiting(&mut self, point: usize, is_waiting: bool) {
        if point < self.is_waiting.len() {
            self.is_waiting[point] = is_waiting;
        }
    }

    /// What all arcs tell a point together, by its settings.
    pub(crate) fn incoming(&self, point: usize) -> &[i32] {
        small_row_at(self.incoming.as_slice(), point)
    }

    /// What is told over an arc, by the settings of its far point.
    pub(crate) fn told(&self, at: usize) -> &[i32] {
        match self.arcs.get(at) {
            Some(carried) => carried.told.as_slice(),
            None => &[],
        }
    }

    /// What is held of an arc, by the settings of its near point.
    pub(crate) fn held(&self, at: usize) -> &[i32] {
        match self.arcs.get(at) {
            Some(carried) => carried.held.as_slice(),
            None => &[],
        }
    }

    /// Holds these amounts at the near end of an arc, by the settings of its point, where those in the tables have these places.
    pub(crate) fn hold_all(
        &mut self,
        tables: &Tables,
        near: End,
        amounts: &[i64],
        places: &[usize],
    ) {
        if near.at < self.arcs.len() && near.other < self.incoming.len() {
            let carried = &mut self.arcs[near.at];
            for (held, place) in carried.held.iter_mut().zip(places) {
                *held = nearest_small(number_at(amounts, *place).wrapping_shr(tables.bits));
            }
            carried.tell(tables, near.turned(), &mut self.incoming[near.other]);
        }
    }

    /// The least that a point costs, as it was noted last.
    pub fn least(&self, point: usize) -> i64 {
        i64::from(small_at(self.leasts.as_slice(), point))
    }

    /// Notes the least that a point costs.
    pub(crate) fn note(&mut self, point: usize, least: i32) {
        let before = i64::from(small_at(self.leasts.as_slice(), point));
        let change = i64::from(least).saturating_sub(before);
        put(&mut self.leasts, point, least);
        self.bound = self.bound.saturating_add(change);
    }

    /// Gives the share of a turn to the arc of an end, whose point is the near one, where the arc costs so much at least by
    /// the settings of that point. Answers whether what is told over it is another amount than before.
    pub(crate) fn give(
        &mut self,
        tables: &Tables,
        end: End,
        costs: &[i32],
        splitter: &Splitter,
        turn: i32,
    ) -> bool {
        if end.at < self.arcs.len() && end.other < self.incoming.len() {
            let carried = &mut self.arcs[end.at];
            if !carried.hold(costs, splitter, turn) {
                return false;
            }
            let prices = carried.prices();
            let has_changed = carried.tell(tables, end.turned(), &mut self.incoming[end.other]);
            self.count(prices);
            return has_changed;
        }
        false
    }

    /// Gives the share of a turn of what is held of the arc of an end to the arc.
    pub(crate) fn give_back(
        &mut self,
        tables: &Tables,
        end: End,
        splitter: &Splitter,
        turn: i32,
    ) -> bool {
        if end.at < self.arcs.len() && end.other < self.incoming.len() {
            let carried = &mut self.arcs[end.at];
            if !carried.lower(splitter, turn) {
                return false;
            }
            let prices = carried.prices();
            let has_changed = carried.tell(tables, end.turned(), &mut self.incoming[end.other]);
            self.count(prices);
            return has_changed;
        }
        false
    }

    /// Counts so much work.
    pub fn count(&mut self, work: u64) {
        self.work = self.work.saturating_add(work);
    }
}
