//! The order in which sweeps go over the points: the slots in their order, and each switch right behind the slot of its guard.

use std::alloc::{AllocError, Global};
use vd_cost_network_prefix::SwitchTable;
use vd_space::Problem;

#[derive(Drop)]
pub struct Order {
    /// The points in this order.
    pub points: Vec<usize>,
    /// At which place of it each point stands.
    pub ranks: Vec<usize>,
}

impl Order {
    /// The order of a problem's points.
    pub(crate) fn of(
        alloc: Global,
        problem: &Problem,
        switches: &[SwitchTable],
    ) -> Result<Order, AllocError> {
        let slots = problem.slots.as_slice().len();
        let mut points = Vec::new(alloc);
        for slot in 0..slots {
            points.push(slot)?;
            for (number, switch) in switches.iter().enumerate() {
                if guarded_slot(problem, switch) == Some(slot) {
                    points.push(slots.saturating_add(number))?;
                }
            }
        }
        let ranks = ranks_of(
            alloc,
            points.as_slice(),
            slots.saturating_add(switches.len()),
        )?;
        Ok(Order { points, ranks })
    }

    /// The place of a point in the order, and a place past the end where there is no such point.
    pub fn rank(&self, point: u32) -> usize {
        match self.ranks.get(point as usize) {
            Some(rank) => *rank,
            None => self.points.len(),
        }
    }
}

/// The slot of a switch's guard.
fn guarded_slot(problem: &Problem, switch: &SwitchTable) -> Option<usize> {
    let guard = problem.guards.as_slice().get(switch.guard as usize)?;
    Some(usize::from(guard.slot.0))
}

/// At which place each of so many points stands.
fn ranks_of(alloc: Global, points: &[usize], count: usize) -> Result<Vec<usize>, AllocError> {
    let mut ranks = vec![in alloc; 0; count]?;
    for (rank, point) in points.iter().enumerate() {
        if *point < ranks.len() {
            ranks[*point] = rank;
        }
    }
    Ok(ranks)
}
