//! All hosts in one process, under any schedule: their machines, what they printed, and the links between them.
#![tactic(auto)]

mod heard;
mod host;
mod laws;
mod link;
mod world;
mod world_report;

pub use laws::{packets_are_counted, worlds_start_at_their_joint_code};
pub use world::World;
pub use world_report::{files_are_valid, play, report, sources_tell};
