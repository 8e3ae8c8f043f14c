//! The top call: what the program does with its words, its files and its streams.
#![tactic(auto)]

mod entry;
mod outside;

pub use entry::{outcomes_exist, run, start};
pub use outside::Outside;
