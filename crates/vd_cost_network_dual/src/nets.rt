//! What shifts come to, all together.

use crate::network::{End, Side};
use crate::numbers::{add_at, put_at, row_at, settings_at, zeros};
use std::alloc::{AllocError, Global};

/// For each arc, by setting, what is put on the point at either end and taken from the arc.
#[derive(Drop)]
pub struct Nets {
    pub firsts: Vec<Vec<i64>>,
    pub seconds: Vec<Vec<i64>>,
}

impl Nets {
    /// Nothing, with so many settings for the points at either end of each arc.
    pub(crate) fn none(alloc: Global, arcs: &[End], counts: &[usize]) -> Result<Nets, AllocError> {
        let mut nets = Nets {
            firsts: Vec::new(alloc),
            seconds: Vec::new(alloc),
        };
        for first in arcs {
            nets.firsts
                .push(zeros(alloc, count_at(counts, first.point))?)?;
            nets.seconds
                .push(zeros(alloc, count_at(counts, first.other))?)?;
        }
        Ok(nets)
    }

    /// What is put on the point at this end, by setting.
    pub fn row(&self, end: End) -> &[i64] {
        match end.side {
            Side::First => row_at(self.firsts.as_slice(), end.at),
            Side::Second => row_at(self.seconds.as_slice(), end.at),
        }
    }

    /// Puts that on the point at this end at a setting, in place of what was there.
    pub fn put(&mut self, end: End, setting: usize, amount: i64) {
        match end.side {
            Side::First => put_at(&mut self.firsts, end.at, setting, amount),
            Side::Second => put_at(&mut self.seconds, end.at, setting, amount),
        }
    }

    /// Puts numbers of so many bits more on the point at this end, at the settings that are left; nothing at those at which it is
    /// not where it is fixed.
    pub(crate) fn put_left(
        &mut self,
        end: End,
        row: &[i32],
        settings: &[Vec<usize>],
        fixed: &[Option<usize>],
        bits: u32,
    ) {
        let at = fixed_at(fixed, end.point);
        let left = settings_at(settings, end.point);
        for (number, (amount, setting)) in row.iter().zip(left).enumerate() {
            let amount = if may_be_at(at, number) {
                i64::from(*amount).wrapping_shl(bits)
            } else {
                0
            };
            self.put(end, *setting, amount);
        }
    }

    /// Puts more on the point at this end at a setting.
    pub fn add(&mut self, end: End, setting: usize, amount: i64) {
        match end.side {
            Side::First => add_at(&mut self.firsts, end.at, setting, amount),
            Side::Second => add_at(&mut self.seconds, end.at, setting, amount),
        }
    }
}

/// Whether a point that is fixed there, if it is, may be at the setting with that number.
fn may_be_at(fixed: Option<usize>, number: usize) -> bool {
    match fixed {
        Some(at) => at == number,
        None => true,
    }
}

/// Where a point is fixed, among the settings that are left.
pub(crate) fn fixed_at(fixed: &[Option<usize>], point: usize) -> Option<usize> {
    match fixed.get(point) {
        Some(number) => *number,
        None => None,
    }
}

/// A row of so many, with the numbers at these places, each of so many bits more.
pub(crate) fn spread(
    alloc: Global,
    row: &[i32],
    places: &[usize],
    count: usize,
    bits: u32,
) -> Result<Vec<i64>, AllocError> {
    let mut spread = zeros(alloc, count)?;
    for (number, place) in row.iter().zip(places) {
        if *place < spread.len() {
            spread[*place] = i64::from(*number).wrapping_shl(bits);
        }
    }
    Ok(spread)
}

/// A count of the list, and 0 past the end.
pub(crate) fn count_at(counts: &[usize], point: usize) -> usize {
    match counts.get(point) {
        Some(count) => *count,
        None => 0,
    }
}
