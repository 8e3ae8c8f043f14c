//! Arc consistency, with a queue of points: which settings are left, where those go that can stand in no valid list: each that
//! has no partner at one of its arcs.

use crate::network::{End, Network};
use crate::numbers::INFINITE_COST;
use crate::order::Order;
use std::alloc::{AllocError, Global};
use std::collections::VecDeque;
use vd_base::Items;
use vd_cost_network_prefix::{ArcTable, NetworkTables, PointTable, SwitchTable};
use vd_space::Problem;

/// What a point costs that cannot be at a setting, in parts.
pub const FORBIDDEN_COST: i64 = 256_000_000_000;

/// A setting that is not left.
#[derive(Clone, Copy, PartialEq, Eq)]
pub struct Removal {
    pub point: usize,
    pub setting: usize,
    /// Where it has no partner left; none where the point alone cannot be there.
    pub end: Option<End>,
}

impl Removal {
    /// Whether it went at this end of an arc.
    pub fn is_at(&self, end: End) -> bool {
        match self.end {
            Some(own) => own.at == end.at && own.side == end.side,
            None => false,
        }
    }
}

/// The settings at which points may be.
#[derive(Drop)]
pub struct Domains {
    /// Whether a point may be at a setting.
    pub live: Vec<Vec<bool>>,
    /// Those that went, in this order.
    pub removed: Vec<Removal>,
    /// No point has more settings.
    pub most: usize,
}

impl Domains {
    /// What is left of the settings of a problem's points, by the tables without shifts; and by the places at which the slots
    /// may stand.
    pub(crate) fn of(
        alloc: Global,
        problem: &Problem,
        tables: &NetworkTables,
        candidates: &[Items<bool>],
        network: &Network,
        order: &Order,
    ) -> Result<Domains, AllocError> {
        let mut domains = Domains {
            live: Vec::new(alloc),
            removed: Vec::new(alloc),
            most: 0,
        };
        let switches = tables.switches.as_slice();
        for point in &order.points {
            if let Some(table) = tables.points.as_slice().get(*point) {
                match candidates.get(*point) {
                    Some(tests) => domains.put_point(alloc, table, tests.as_slice())?,
                    None => {
                        let number = point.saturating_sub(candidates.len());
                        let may_be_off = !is_told(problem, switches, number);
                        domains.put_point(alloc, table, &[may_be_off, true])?;
                    }
                }
            }
        }
        domains.prune_all(alloc, tables.arcs.as_slice(), network)?;
        Ok(domains)
    }

    /// Adds a point with these costs, where tests say at which settings it may be. One that costs too much goes at once.
    fn put_point(
        &mut self,
        alloc: Global,
        table: &PointTable,
        tests: &[bool],
    ) -> Result<(), AllocError> {
        let point = self.live.len();
        let mut row = Vec::new(alloc);
        for (cost, test) in table.costs.as_slice().iter().zip(tests) {
            let is_too_dear = *cost >= FORBIDDEN_COST;
            if *test && is_too_dear {
                self.removed.push(Removal {
                    point,
                    setting: row.len(),
                    end: None,
                })?;
            }
            row.push(*test && !is_too_dear)?;
        }
        self.most = self.most.max(row.len());
        self.live.push(row)?;
        Ok(())
    }

    /// Prunes until nothing changes: at first the arcs of each point, and again those of a point that lost a setting. No point
    /// loses more than it has, so the turns suffice.
    fn prune_all(
        &mut self,
        alloc: Global,
        arcs: &[ArcTable],
        network: &Network,
    ) -> Result<(), AllocError> {
        let points = self.live.len();
        let mut queue = Queue::of(alloc, points)?;
        for _ in 0..points.saturating_mul(self.most.saturating_add(1)) {
            let Some(point) = queue.take() else {
                break;
            };
            for end in network.of_point(point) {
                let end = end.turned();
                if self.prune(arcs, end)? {
                    queue.put(end.point)?;
                }
            }
        }
        Ok(())
    }

    /// Lets each setting of the point go that has no partner at the arc. Answers whether one went.
    fn prune(&mut self, arcs: &[ArcTable], end: End) -> Result<bool, AllocError> {
        let mut has_changed = false;
        for setting in 0..self.most {
            if self.is_live(end.point, setting) && !self.has_partner(arcs, end, setting) {
                self.remove(end, setting)?;
                has_changed = true;
            }
        }
        Ok(has_changed)
    }

    /// Whether the point may be at the setting.
    fn is_live(&self, point: usize, setting: usize) -> bool {
        match self.live.get(point) {
            Some(row) => is_set(row.as_slice(), setting),
            None => false,
        }
    }

    /// Whether a setting that is left for the other point joins the setting.
    fn has_partner(&self, arcs: &[ArcTable], end: End, setting: usize) -> bool {
        for partner in 0..self.most {
            if self.is_live(end.other, partner)
                && end.price(arcs, setting, partner) < INFINITE_COST
            {
                return true;
            }
        }
        false
    }

    /// Lets the setting of the point go.
    fn remove(&mut self, end: End, setting: usize) -> Result<(), AllocError> {
        if end.point < self.live.len() {
            unset(&mut self.live[end.point], setting);
        }
        self.removed.push(Removal {
            point: end.point,
            setting,
            end: Some(end),
        })?;
        Ok(())
    }

    /// How many settings each point has, with those that are not left.
    pub(crate) fn counts(&self, alloc: Global) -> Result<Vec<usize>, AllocError> {
        let mut counts = Vec::new(alloc);
        for row in &self.live {
            counts.push(row.len())?;
        }
        Ok(counts)
    }

    /// The settings that are left for each point; none where a point has none left.
    pub(crate) fn settings(&self, alloc: Global) -> Result<Option<Vec<Vec<usize>>>, AllocError> {
        let mut settings = Vec::new(alloc);
        for row in &self.live {
            let left = set_places(alloc, row.as_slice())?;
            if left.is_empty() {
                return Ok(None);
            }
            settings.push(left)?;
        }
        Ok(Some(settings))
    }
}

/// Whether the host of a switch takes part whatever the list is: it is told an output there.
fn is_told(problem: &Problem, switches: &[SwitchTable], number: usize) -> bool {
    match switches.get(number) {
        Some(switch) => match problem.guards.as_slice().get(switch.guard as usize) {
            Some(guard) => guard.hosts.as_slice().contains(&switch.host),
            None => false,
        },
        None => false,
    }
}

/// Whether the place is set.
fn is_set(row: &[bool], place: usize) -> bool {
    match row.get(place) {
        Some(test) => *test,
        None => false,
    }
}

/// Unsets a place, if there is one.
fn unset(row: &mut Vec<bool>, place: usize) {
    if place < row.len() {
        row[place] = false;
    }
}

/// The places that are set.
fn set_places(alloc: Global, row: &[bool]) -> Result<Vec<usize>, AllocError> {
    let mut places = Vec::new(alloc);
    for (place, test) in row.iter().enumerate() {
        if *test {
            places.push(place)?;
        }
    }
    Ok(places)
}

/// Points that wait, none twice.
#[derive(Drop)]
struct Queue {
    points: VecDeque<usize>,
    is_waiting: Vec<bool>,
}

impl Queue {
    /// All of so many points, in order.
    fn of(alloc: Global, points: usize) -> Result<Queue, AllocError> {
        let mut queue = Queue {
            points: VecDeque::new(alloc),
            is_waiting: vec![in alloc; false; points]?,
        };
        for point in 0..points {
            queue.put(point)?;
        }
        Ok(queue)
    }

    /// Puts a point to the end, unless it waits already.
    fn put(&mut self, point: usize) -> Result<(), AllocError> {
        if point < self.is_waiting.len() && !self.is_waiting[point] {
            self.points.push_back(point)?;
            self.is_waiting[point] = true;
        }
        Ok(())
    }

    /// Takes the first, if one waits.
    fn take(&mut self) -> Option<usize> {
        let point = self.points.pop_front()?;
        unset(&mut self.is_waiting, point);
        Some(point)
    }
}
