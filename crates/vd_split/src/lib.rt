//! The splitter: a program whose slots stand at given protocols, as the joint code of its hosts.
#![tactic(auto)]

mod acting;
mod blocks;
mod choreography;
mod code;
mod marks;
mod moves;
mod protocols;
mod rights;
mod slots;
mod statements;
mod taking;

pub use blocks::joint_code;
pub use code::host_code;
pub use protocols::Protocols;
