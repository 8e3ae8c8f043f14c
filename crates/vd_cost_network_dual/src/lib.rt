//! Block-coordinate ascent on the dual of a cost network: sweeps over its points and arcs, in which amounts go to and fro between
//! the terms of these, so that the sum of their least values rises. Nothing is promised of the amounts.
#![tactic(auto)]

mod arc_consistency;
mod climb;
mod layout;
mod lifting;
mod messages;
mod nets;
mod network;
mod numbers;
mod order;
mod progress;
mod splitter;
mod sweeps;
mod tables;
mod witness;

pub use arc_consistency::FORBIDDEN_COST;
pub use climb::{Limits, NoObserver, Observer};
pub use layout::Layout;
pub use lifting::{Lift, Lifting};
pub use nets::Nets;
pub use network::{End, Network, Side};
pub use numbers::{INFINITE_COST, UNIT, UNIT_BITS, number_at, row_at, settings_at};
pub use progress::Ending;
pub use sweeps::State;
pub use tables::Tables;
pub use witness::Witness;
