//! The tables by which points and arcs are bounded. All amounts are in parts of a unit.

use vd_base::{HostId, Items, SlotId};
use vd_search_tree::Shift;

/// What a point alone costs: by its setting, and at least where it is not decided.
#[derive(Drop)]
pub struct PointTable {
    pub costs: Items<i64>,
    pub free: i64,
}

/// What an arc costs, by the settings of its two points, where these join; and at least by the setting of the first where
/// the second is not decided, by that of the second where the first is not, and where neither is.
#[derive(Drop)]
pub struct ArcTable {
    pub first: u32,
    pub second: u32,
    pub cells: Items<Items<Option<i64>>>,
    pub rows: Items<i64>,
    pub columns: Items<i64>,
    pub both: i64,
}

/// A switch: the number of its guard, its host, and the slots that may bring the host in.
#[derive(Drop)]
pub struct SwitchTable {
    pub guard: u32,
    pub host: HostId,
    pub members: Items<SlotId>,
}

/// The tables of a problem and of shifts that name arcs.
#[derive(Drop)]
pub struct NetworkTables {
    pub shifts: Items<Shift>,
    /// By point: the slots, then the switches.
    pub points: Items<PointTable>,
    /// By number.
    pub arcs: Items<ArcTable>,
    /// By guard, and then by host.
    pub switches: Items<SwitchTable>,
}
