//! One host over a net: it listens for its later peers, meets all of them, drives its machine and hands its links back.
#![tactic(auto)]

mod fault;
mod host_start;
mod laws;
mod listening;
mod meeting;
mod playing;
mod returning;
mod task;

pub use fault::HostFault;
pub use host_start::{Ready, start};
pub use laws::{faults_have_causes, hosts_ask_in_order, limits_stay, links_come_back};
pub use playing::play;
pub use task::Task;
