//! What does not depend on shifts.

use vd_base::{Items, Proto};
use vd_cost_network_prefix::SwitchTable;
use vd_cost_network_tables::RawArc;

/// What the bound by arcs of every prefix is made of, whatever the shifts are. All amounts are in parts of a unit.
#[derive(Drop)]
pub struct NetworkBound {
    /// The protocols of the problem.
    pub list: Items<Proto>,
    /// By guard, and then by host.
    pub switches: Items<SwitchTable>,
    /// By number, without shifts.
    pub arcs: Items<RawArc>,
    /// By point, the settings at which it may be.
    pub free: Items<Items<u32>>,
    /// By point, what it alone costs by setting.
    pub values: Items<Items<Option<i64>>>,
}
