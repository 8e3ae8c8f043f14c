//! Words that are the sum, modulo 2^32, of the parts of two hosts.
#![tactic(auto)]

mod add_pair;
mod laws;

pub use add_pair::AddPair;
pub use laws::{shared_sums_are_a_back_end, worked_numbers};
