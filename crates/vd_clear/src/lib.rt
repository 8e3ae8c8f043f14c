//! Words in clear: at one host, or a copy at each of several hosts.
#![tactic(auto)]

mod apply;
mod back_ends;
mod each;
mod laws;
mod show;
mod steps;

pub use back_ends::{LocalHost, Replica, spread};
pub use each::{Step, each_host};
pub use laws::{copies_are_a_back_end, one_host_is_a_back_end, spread_keeps_the_word};
