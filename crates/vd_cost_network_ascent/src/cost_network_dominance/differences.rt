//! By how much a point costs more at one setting than at another, at least.

use std::alloc::{AllocError, Global};
use vd_cost_network_dual::{End, Tables};

/// More than two prices differ by, in steps; where one of them is that of what cannot be done they differ by more.
const APART: i32 = 536_870_912;

/// What a difference comes to that nothing can make up for.
const NEVER: i64 = -1_125_899_906_842_624;

/// By how much a point costs more at each setting than at each other, at least, whatever the settings of its partners are.
#[derive(Drop)]
pub(crate) struct Differences {
    /// By setting and other setting.
    rows: Vec<Vec<i64>>,
    /// What an arc costs at a setting; `i32::MAX` where that cannot be done, or the partner's setting is not left.
    room: Vec<i32>,
}

impl Differences {
    /// By what points cost alone.
    pub(crate) fn of(alloc: Global, costs: &[i32]) -> Result<Differences, AllocError> {
        let mut rows = Vec::with_capacity(alloc, costs.len())?;
        for cost in costs {
            let mut row = Vec::with_capacity(alloc, costs.len())?;
            for other in costs {
                row.push(i64::from(*cost).wrapping_sub(i64::from(*other)))?;
            }
            rows.push(row)?;
        }
        Ok(Differences {
            rows,
            room: Vec::new(alloc),
        })
    }

    /// Adds the least differences over an arc, between settings that are left, by the settings of the other point that are.
    pub(crate) fn add(
        &mut self,
        tables: &Tables,
        end: End,
        left: &[bool],
        partners: &[bool],
    ) -> Result<(), AllocError> {
        let prices = tables.rows(end);
        for ((row, own), is_left) in self.rows.iter_mut().zip(prices).zip(left) {
            if *is_left {
                fill(&mut self.room, own.as_slice(), partners)?;
                add_differences(row, self.room.as_slice(), prices, left);
            }
        }
        Ok(())
    }

    /// Whether the point costs no less at a setting than at some other that is left: more, or as much at one before it.
    pub(crate) fn is_costlier(&self, setting: usize, left: &[bool]) -> bool {
        match self.rows.get(setting) {
            Some(row) => has_better(row.as_slice(), setting, left),
            None => false,
        }
    }
}

/// Fills the room with what an arc costs at a setting, by the partner's.
fn fill(room: &mut Vec<i32>, prices: &[i32], partners: &[bool]) -> Result<(), AllocError> {
    room.truncate(0);
    for (price, is_left) in prices.iter().zip(partners) {
        let is_open = *is_left && *price <= APART;
        room.push(if is_open { *price } else { i32::MAX })?;
    }
    Ok(())
}

/// Adds the least differences between what is in the room and the prices at each setting that is left.
fn add_differences(row: &mut Vec<i64>, room: &[i32], prices: &[Vec<i32>], left: &[bool]) {
    for ((sum, other), is_left) in row.iter_mut().zip(prices).zip(left) {
        if *is_left && *sum > NEVER {
            *sum = sum.saturating_add(difference_of(least_difference(room, other.as_slice())));
        }
    }
}

/// The least difference of two rows of prices.
fn least_difference(room: &[i32], prices: &[i32]) -> i32 {
    let mut least = i32::MAX;
    for (more, less) in room.iter().zip(prices) {
        least = least.min(more.wrapping_sub(*less));
    }
    least
}

/// What a least difference of prices comes to: nothing where there is no partner, and what cannot be made up for where the other
/// setting lacks one.
fn difference_of(least: i32) -> i64 {
    if least >= APART {
        0
    } else if least <= -APART {
        NEVER
    } else {
        i64::from(least)
    }
}

/// Whether one of these is more than nothing, or nothing at a setting before this one, among those that are left.
fn has_better(row: &[i64], setting: usize, left: &[bool]) -> bool {
    for (other, (difference, is_left)) in row.iter().zip(left).enumerate() {
        if *is_left
            && other != setting
            && (*difference > 0 || *difference == 0 && other < setting)
        {
            return true;
        }
    }
    false
}
