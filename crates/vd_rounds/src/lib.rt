//! What a run costs, counted in the codes of its hosts: the packets, words and bytes that each sends to each other one.
#![tactic(auto)]

mod laws;
mod loads;
mod tallies;

pub use laws::{bytes_are_counted, hosts_tell_within, rounds_are_read_off};
pub use loads::{Load, Traffic, plain_bytes, sealed_bytes, traffic_to};
pub use tallies::{Bound, Measure, Tally, count_told};
