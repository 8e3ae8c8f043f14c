//! The command `replay`: all hosts of a program run in one process, under a schedule.
#![tactic(auto)]

mod laws;
mod replay_command;

pub use laws::hard_budgets_are_enough;
pub use replay_command::{replay, replay_at};
