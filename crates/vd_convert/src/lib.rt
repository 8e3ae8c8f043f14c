//! Words that two hosts share go from sums to exclusive or, and back.
#![tactic(auto)]

mod convert;
mod laws;

pub use convert::{to_add, to_xor};
pub use laws::conversions_keep_the_word;
