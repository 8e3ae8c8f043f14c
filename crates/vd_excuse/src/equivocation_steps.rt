//! The steps of a plan, read from the lines of its joint code.

mod ahead;
mod block;
mod reader;
mod steps;

pub use steps::steps_of;
