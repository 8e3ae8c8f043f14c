//! One host over its links: its machine is driven by the packets that come, and what it prints goes to a sink.
#![tactic(auto)]

mod engine;
mod fault;
mod laws;
mod links;
mod writing;

pub use engine::{Ended, drive};
pub use fault::EngineFault;
pub use laws::enough_ends_well;
pub use links::Links;
