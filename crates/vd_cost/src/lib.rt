//! What operations cost at protocols, and what it costs to bring a value from one protocol to another.
#![tactic(auto)]

mod moves;
mod operations;

pub use moves::move_cost;
pub use operations::op_cost;
