//! Which settings cost no less than another one of their point.

use crate::cost_network_dominance::differences::Differences;
use std::alloc::{AllocError, Global};
use vd_cost_network_dual::{Network, Tables};

/// At most so often all points are gone over again, at which a partner lost a setting.
const ROUNDS: u32 = 8;

/// A setting of a point, among those of the tables.
#[derive(Clone, Copy, PartialEq, Eq)]
pub(crate) struct Costlier {
    pub(crate) point: usize,
    pub(crate) number: usize,
}

/// The settings that are left, where those go that cost no less than another one which is left.
#[derive(Drop)]
pub(crate) struct Thinning {
    /// By point and setting.
    pub(crate) live: Vec<Vec<bool>>,
    /// Those that went, in this order.
    pub(crate) gone: Vec<Costlier>,
    /// By point: whether a partner has lost a setting since it was looked at.
    is_waiting: Vec<bool>,
}

impl Thinning {
    pub(crate) fn of(
        alloc: Global,
        tables: &Tables,
        network: &Network,
    ) -> Result<Thinning, AllocError> {
        let mut live = Vec::with_capacity(alloc, tables.costs.len())?;
        for costs in &tables.costs {
            live.push(vec![in alloc; true; costs.len()]?)?;
        }
        let mut thinning = Thinning {
            live,
            gone: Vec::new(alloc),
            is_waiting: vec![in alloc; true; tables.costs.len()]?,
        };
        for _ in 0..ROUNDS {
            let before = thinning.gone.len();
            thinning.go_round(alloc, tables, network)?;
            if thinning.gone.len() == before {
                break;
            }
        }
        Ok(thinning)
    }

    /// Goes over all points that wait.
    fn go_round(
        &mut self,
        alloc: Global,
        tables: &Tables,
        network: &Network,
    ) -> Result<(), AllocError> {
        for point in 0..tables.costs.len() {
            if self.take(point) && self.thin(alloc, tables, network, point)? {
                for end in network.of_point(point) {
                    self.set_waiting(end.other, true);
                }
            }
        }
        Ok(())
    }

    /// Takes a point that waits. Answers whether it waited.
    fn take(&mut self, point: usize) -> bool {
        let waited = self.is_waiting.get(point) == Some(&true);
        self.set_waiting(point, false);
        waited
    }

    fn set_waiting(&mut self, point: usize, is_waiting: bool) {
        if point < self.is_waiting.len() {
            self.is_waiting[point] = is_waiting;
        }
    }

    /// Lets the settings of a point go that cost no less than another. Answers whether one went.
    fn thin(
        &mut self,
        alloc: Global,
        tables: &Tables,
        network: &Network,
        point: usize,
    ) -> Result<bool, AllocError> {
        let Some(costs) = tables.costs.get(point) else {
            return Ok(false);
        };
        let count = costs.len();
        let mut differences = Differences::of(alloc, costs.as_slice())?;
        for end in network.of_point(point) {
            differences.add(tables, *end, self.live_of(point), self.live_of(end.other))?;
        }
        let mut has_changed = false;
        for back in 0..count {
            let number = count - 1 - back;
            if self.is_live(point, number) && differences.is_costlier(number, self.live_of(point)) {
                self.let_go(point, number)?;
                has_changed = true;
            }
        }
        Ok(has_changed)
    }

    /// Which settings of a point are left.
    fn live_of(&self, point: usize) -> &[bool] {
        match self.live.get(point) {
            Some(row) => row.as_slice(),
            None => &[],
        }
    }

    /// Whether a setting of a point is left.
    fn is_live(&self, point: usize, number: usize) -> bool {
        self.live_of(point).get(number) == Some(&true)
    }

    /// Lets a setting of a point go.
    fn let_go(&mut self, point: usize, number: usize) -> Result<(), AllocError> {
        if point < self.live.len() {
            unset(&mut self.live[point], number);
        }
        self.gone.push(Costlier { point, number })?;
        Ok(())
    }
}

/// Unsets a place, if there is one.
fn unset(row: &mut Vec<bool>, place: usize) {
    if place < row.len() {
        row[place] = false;
    }
}
