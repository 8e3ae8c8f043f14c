//! What a point costs by its settings, and how what is above the least is split over its arcs.

use crate::network::Network;
use crate::numbers::{INFINITE_STEPS, number_at, put, small_at, small_zeros, zeros};
use std::alloc::{AllocError, Global};

/// How what a point gives is split over the arcs that are ahead: in equal parts for all of them, and for as many behind.
#[derive(Clone, Copy, PartialEq, Eq)]
pub(crate) struct Split {
    ahead: u32,
    parts: u32,
    /// 2^`bits` divided by the parts, and 1 more: by this a number is divided without a division.
    factor: u32,
    bits: u32,
}

impl Split {
    /// Of so many arcs ahead and behind; none where no arc is ahead.
    pub fn of(ahead: usize, behind: usize) -> Option<Split> {
        if ahead == 0 {
            return None;
        }
        Some(Split::in_parts(nearest_count(ahead), nearest_count(ahead.max(behind))))
    }

    /// All for one arc.
    pub fn whole() -> Split {
        Split::in_parts(1, 1)
    }

    /// For so many arcs ahead, where so many parts are made. The factor is great enough for all numbers below 2^31.
    fn in_parts(ahead: u32, parts: u32) -> Split {
        let bits = 63u32.saturating_sub(parts.saturating_sub(1).leading_zeros());
        let factor = (1u64.wrapping_shl(bits) / u64::from(parts).max(1)).wrapping_add(1);
        Split {
            ahead,
            parts,
            factor: nearest_word(factor),
            bits,
        }
    }

    /// A number below 2^31 divided by the parts, rounded down.
    fn part_of(self, number: u32) -> u32 {
        nearest_word(
            u64::from(number)
                .wrapping_mul(u64::from(self.factor))
                .wrapping_shr(self.bits),
        )
    }

    /// How many arcs ahead get one more, where so much is left over: their part of it, rounded up.
    fn shared(self, left_over: u32) -> u32 {
        if self.ahead == self.parts {
            return left_over;
        }
        let all = left_over.saturating_mul(self.ahead);
        self.part_of(all.saturating_add(self.parts.saturating_sub(1)))
    }
}

/// By point, how what it gives is split in sweeps one way.
pub(crate) fn splits(
    alloc: Global,
    network: &Network,
    forward: bool,
) -> Result<Vec<Option<Split>>, AllocError> {
    let points = network.by_point.len();
    let mut splits = Vec::with_capacity(alloc, points)?;
    for point in 0..points {
        let ahead = network.ahead(point, forward).len();
        let behind = network.ahead(point, !forward).len();
        splits.push(Split::of(ahead, behind))?;
    }
    Ok(splits)
}

/// How what a point gives is split; not at all past the end.
pub(crate) fn split_at(splits: &[Option<Split>], point: usize) -> Option<Split> {
    match splits.get(point) {
        Some(split) => *split,
        None => None,
    }
}

/// What a point costs by its settings, and what of it goes to its arcs.
#[derive(Drop)]
pub(crate) struct Splitter {
    /// How many settings the point has.
    count: usize,
    totals: Vec<i32>,
    /// What each arc gets at least, by setting.
    pub parts: Vec<i32>,
    /// As many arcs, the first ones, get one more there.
    pub more: Vec<i32>,
    /// Room for sums in which a price may be that of what cannot be done.
    sums: Vec<i64>,
    /// So many arcs get something.
    arcs: u32,
    /// The number of the sweep, by which the arcs take turns with what is left over.
    turn: u32,
}

impl Splitter {
    /// Room for points of so many settings.
    pub fn room(alloc: Global, most: usize) -> Result<Splitter, AllocError> {
        Ok(Splitter {
            count: 0,
            totals: small_zeros(alloc, most)?,
            parts: small_zeros(alloc, most)?,
            more: small_zeros(alloc, most)?,
            sums: zeros(alloc, most)?,
            arcs: 0,
            turn: 0,
        })
    }

    /// Lets the next sweep be the first.
    pub(crate) fn begin_turns(&mut self) {
        self.turn = u32::MAX;
    }

    /// The next sweep.
    pub fn turn(&mut self) {
        self.turn = self.turn.wrapping_add(1);
    }

    /// Begins with what a point costs alone, and what its arcs tell it in sweeps either way.
    pub(crate) fn sum_up(&mut self, costs: &[i32], told: &[i32], told_back: &[i32]) {
        self.count = costs.len();
        let amounts = costs.iter().zip(told).zip(told_back);
        for (total, ((cost, amount), back)) in self.totals.iter_mut().zip(amounts) {
            *total = cost.wrapping_add(*amount).wrapping_add(*back);
        }
    }

    /// Begins with what a point costs alone.
    pub fn begin(&mut self, costs: &[i32]) {
        self.count = costs.len();
        for (total, cost) in self.totals.iter_mut().zip(costs) {
            *total = *cost;
        }
    }

    /// Begins with nothing.
    pub(crate) fn begin_with_nothing(&mut self) {
        for total in &mut self.totals {
            *total = 0;
        }
    }

    /// Adds what the point costs more by its settings.
    pub fn add(&mut self, costs: &[i32]) {
        for (total, cost) in self.totals.iter_mut().zip(costs) {
            *total = total.wrapping_add(*cost);
        }
    }

    /// The least that the point costs.
    pub fn least(&self) -> i32 {
        let mut least = i32::MAX;
        for total in self.totals.iter().take(self.count) {
            least = least.min(*total);
        }
        least
    }

    /// Begins sums with what a point costs alone.
    pub(crate) fn begin_sums(&mut self, costs: &[i32]) {
        self.count = costs.len();
        for (sum, cost) in self.sums.iter_mut().zip(costs) {
            *sum = i64::from(*cost);
        }
    }

    /// Adds to the sums.
    pub fn sum(&mut self, costs: &[i32]) {
        for (sum, cost) in self.sums.iter_mut().zip(costs) {
            *sum = sum.wrapping_add(i64::from(*cost));
        }
    }

    /// The first setting of the least sum, together with what the point is told besides.
    pub(crate) fn best(&self, told: &[i32]) -> usize {
        let mut best = 0;
        let mut least = i64::MAX;
        let sums = self.sums.iter().take(self.count).zip(told);
        for (setting, (sum, amount)) in sums.enumerate() {
            let cost = sum.wrapping_add(i64::from(*amount));
            if cost < least {
                least = cost;
                best = setting;
            }
        }
        best
    }

    /// The same with what was added besides.
    pub(crate) fn best_with_more(&self) -> usize {
        self.best(self.totals.as_slice())
    }

    /// The sum at a setting.
    pub(crate) fn sum_at(&self, setting: usize) -> i64 {
        number_at(self.sums.as_slice(), setting)
    }

    /// Splits what the point costs above its least.
    pub(crate) fn split(&mut self, split: Split, least: i32) {
        self.arcs = split.ahead;
        for setting in 0..self.count {
            let above = small_at(self.totals.as_slice(), setting).saturating_sub(least);
            let above = above.max(0) as u32;
            let part = split.part_of(above);
            let left_over = above.wrapping_sub(part.wrapping_mul(split.parts));
            put(&mut self.parts, setting, number_of(part));
            put(&mut self.more, setting, number_of(split.shared(left_over)));
        }
    }

    /// Whose turn the first of the arcs is in this sweep; none where no arc gets anything.
    pub(crate) fn first_turn(&self) -> Option<i32> {
        if self.arcs == 0 {
            return None;
        }
        Some(number_of(self.turn % self.arcs))
    }

    /// Whose turn the arc behind one with that turn is.
    pub(crate) fn turn_after(&self, turn: i32) -> i32 {
        let next = turn.saturating_add(1);
        if next < number_of(self.arcs) { next } else { 0 }
    }
}

/// What an arc with a turn gets, where each gets this part, and as many arcs, the first ones, get one more.
pub(crate) fn share_of(part: i32, more: i32, turn: i32) -> i32 {
    part.wrapping_sub(minus_one_below(turn, more))
}

/// -1 where the number is less than the other, and else 0, of numbers from 0 to `INFINITE_STEPS`: all bits are that of the sign.
fn minus_one_below(number: i32, other: i32) -> i32 {
    number.wrapping_sub(other) >> 31
}

/// The number, or `INFINITE_STEPS` where it is greater.
fn number_of(number: u32) -> i32 {
    number.min(INFINITE_STEPS as u32) as i32
}

/// So many, or the greatest number of 32 bits where there are more.
fn nearest_count(count: usize) -> u32 {
    count.min(4_294_967_295) as u32
}

/// The number, or the greatest one of 32 bits where it is greater.
fn nearest_word(number: u64) -> u32 {
    number.min(4_294_967_295) as u32
}
