//! The command `compile` with the word `early`: the programs of all hosts of a source in an order that waits less, each in a file of its
//! own.
#![tactic(auto)]

mod early_command;
mod laws;

pub use early_command::run_early;
pub use laws::plans_tell_source_choice_and_order;
