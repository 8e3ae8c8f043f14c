//! The commands `needs` and `rounds`: how much to deal for a source, what each host takes, and what it sends to each other one.
#![tactic(auto)]

mod laws;
mod lines;
mod needs_command;
mod program;
mod rounds_lines;

pub use laws::{kinds_are_told, sizes_are_dealt};
pub use needs_command::needs;
