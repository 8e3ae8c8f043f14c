//! The tables of arcs: of every problem and all shifts that name arcs, what a path needs for the bound by arcs.
#![tactic(auto)]

mod arcs;
mod assembly;
mod cells;
mod points;
mod raw;
mod switches;

pub use assembly::{all_arcs, most_settings, network_tables, settings};
pub use cells::{less, value_at};
pub use points::slot_costs;
pub use raw::RawArc;
pub use switches::switch_tables;
