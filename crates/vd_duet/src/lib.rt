//! Joint code that is being made, and what a back end is: how words stand at the hosts of a protocol.
#![tactic(auto)]

mod backend;
mod duet;
mod parts;

pub use backend::Backend;
pub use duet::Duet;
pub use parts::{Args, Part, Parts, register_at};
