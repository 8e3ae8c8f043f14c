//! Marks as files of a directory, and the system's random bytes.
#![tactic(auto)]

mod laws;
mod randomness;
mod real_marks;

pub use laws::no_copy_serves_twice;
pub use randomness::Randomness;
pub use real_marks::RealMarks;
