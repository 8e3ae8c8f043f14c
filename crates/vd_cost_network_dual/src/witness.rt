//! Lists that are known.

use crate::numbers::INFINITE_STEPS;
use std::alloc::Global;

/// A list of settings, one for each point, and what it costs in steps: `i64::MAX` where an arc does not join.
#[derive(Drop)]
pub struct Witness {
    pub settings: Vec<usize>,
    pub cost: i64,
}

impl Witness {
    /// No list at all.
    pub fn none(alloc: Global) -> Witness {
        Witness {
            settings: Vec::new(alloc),
            cost: i64::MAX,
        }
    }

    /// A list, with what it costs: no list where that is too much for arcs that join.
    pub fn of(settings: Vec<usize>, cost: i64) -> Witness {
        let joins = cost < i64::from(INFINITE_STEPS);
        Witness {
            settings,
            cost: if joins { cost } else { i64::MAX },
        }
    }

    /// Whether the list has the point at the setting.
    pub fn has(&self, point: usize, setting: usize) -> bool {
        self.settings.get(point) == Some(&setting)
    }

    /// Takes the place of this one if the other costs less.
    pub fn take_cheaper(&mut self, other: Witness) {
        if other.cost < self.cost {
            *self = other;
        }
    }
}
