//! Sources of any size: whether two hosts' points are nearer to each other than a limit.
#![tactic(auto)]

mod sizes;
mod source;

pub use sizes::{COORDINATES, sizes_are_stated};
pub use source::generate;
