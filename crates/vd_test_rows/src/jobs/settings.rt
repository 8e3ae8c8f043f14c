//! The settings at which each point of a problem may be: protocols, by their place in the list, or off and on.

ghost use Rattle.vd_space.specs.WellFormed.{AreProtocols};

use std::alloc::{AllocError, Global};
use vd_base::{Items, Proto};
use vd_cost_network_prefix::{NetworkTables, PointTable, SwitchTable};
use vd_space::Problem;
use vd_space_tables::candidates;

/// What a point costs at a setting where it cannot be, in parts.
const NOTHING_LEFT: i64 = 256_000_000_000;

/// The number of the setting at which a switch is off.
const OFF: usize = 0;

/// By point: the settings at which it may be, in order.
#[derive(Drop)]
pub(crate) struct Settings {
    rows: Vec<Vec<usize>>,
}

impl Settings {
    /// Of a problem, by its tables without shifts.
    pub(crate) fn of(
        alloc: Global,
        problem: &Problem,
        list: &[Proto],
        tables: &NetworkTables,
    ) -> Result<Settings, AllocError>
        requires { AreProtocols problem.now list.now }
    {
        let candidates = candidates(alloc, problem, list)?;
        let slots = candidates.as_slice();
        let mut rows = Vec::new(alloc);
        for (point, table) in tables.points.as_slice().iter().enumerate() {
            let row = match slots.get(point) {
                Some(tests) => slot_settings(alloc, table, tests.as_slice())?,
                None => {
                    let number = point.saturating_sub(slots.len());
                    let always = is_always_on(problem, tables.switches.as_slice(), number);
                    switch_settings(alloc, table, always)?
                }
            };
            rows.push(row)?;
        }
        Ok(Settings { rows })
    }

    /// The settings of a point, none past the end.
    pub(crate) fn at(&self, point: usize) -> &[usize] {
        match self.rows.get(point) {
            Some(row) => row.as_slice(),
            None => &[],
        }
    }
}

/// The settings of a slot: its candidates, but for those at which its operation or its outputs cannot be.
fn slot_settings(
    alloc: Global,
    table: &PointTable,
    tests: &[bool],
) -> Result<Vec<usize>, AllocError> {
    let mut settings = Vec::new(alloc);
    for (setting, cost) in table.costs.as_slice().iter().enumerate() {
        if *cost < NOTHING_LEFT && tests.get(setting) == Some(&true) {
            settings.push(setting)?;
        }
    }
    Ok(settings)
}

/// The settings of a switch.
fn switch_settings(
    alloc: Global,
    table: &PointTable,
    is_always_on: bool,
) -> Result<Vec<usize>, AllocError> {
    let mut settings = Vec::new(alloc);
    for (setting, cost) in table.costs.as_slice().iter().enumerate() {
        if *cost < NOTHING_LEFT && !(is_always_on && setting == OFF) {
            settings.push(setting)?;
        }
    }
    Ok(settings)
}

/// Whether the host of a switch takes part in the branches whatever is chosen, by an output.
fn is_always_on(problem: &Problem, switches: &[SwitchTable], number: usize) -> bool {
    let Some(switch) = switches.get(number) else {
        return false;
    };
    match problem.guards.as_slice().get(switch.guard as usize) {
        Some(guard) => guard.hosts.as_slice().contains(&switch.host),
        None => false,
    }
}
