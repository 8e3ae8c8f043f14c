//! One host's machine: what its next instruction needs, and one step.
#![tactic(auto)]

mod did;
mod frames;
mod hashing;
mod lists;
mod machine;
mod ops;
mod perform;
mod quiet;
mod registers;
mod resolve;
mod want;
mod width;

pub use did::{Did, Outgoing};
pub use hashing::digest;
pub use machine::Machine;
pub use perform::apply;
pub use want::Want;
