//! The programs of all hosts in an order that waits less: the joint code is brought forward and packets share, before it is split.

mod codes;
mod laws;

pub use codes::split_early;
pub use laws::{early_codes_run_alike, early_texts_are_careful};
