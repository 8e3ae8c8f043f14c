//! Child programs as they are: what a spawner asks of them, over the system's processes. All children are read by turns, so that
//! none of them stands still because nobody reads it; the contracts say which program is started with which words, and which
//! lines the bytes are that a child writes.
#![tactic(auto)]

mod laws;
mod lines;
mod next;
mod player;
mod running;
mod spawner;
mod turns;

pub use laws::causes_come_first;
pub use running::{PARENT, REASONS};
pub use spawner::RealSpawner;
