//! The least labelling of a system.
#![tactic(auto)]

mod checking;
mod labels_least;
mod raising;
mod readers;
mod solving;
mod waiting;

pub use checking::first_failing;
pub use labels_least::{labellings_are_single, labellings_are_total};
pub use solving::{solve, solve_rules};
