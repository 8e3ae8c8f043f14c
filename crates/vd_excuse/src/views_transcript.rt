//! What one host of a program sends another in the joint run.

mod filling;
mod talking;

pub use talking::talk;
