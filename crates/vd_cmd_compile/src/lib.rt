//! The command `compile`: the programs of all hosts of a source, each in a file of its own.
#![tactic(auto)]

mod compile_command;

pub use compile_command::{compile, compile_choice, files_of};
