//! The command `excuse`: a deal under which other inputs look to a host as those of a run did.
#![tactic(auto)]

mod answer;
mod checks;
mod dealing;
mod excuse_command;
mod laws;
mod runs;

pub use excuse_command::excuse;
pub use laws::talk_names_the_sender;
