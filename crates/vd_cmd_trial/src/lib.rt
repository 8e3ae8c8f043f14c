//! The command `trial`: a generated source is run by all its hosts in one process, on inputs and a deal of its own.
#![tactic(auto)]

mod asking;
mod laws;
mod trial_command;

pub use laws::points_are_apart;
pub use trial_command::trial;
