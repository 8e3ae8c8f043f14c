//! A net whose links are sealed: it owns another net, and once it is told what to seal by it gives only links to hosts that proved
//! that they have the link's key.

mod accepting;
mod answered;
mod laws;
mod ledger;
mod run_link;
mod run_net;
mod seal;
mod sealed_net;

pub use laws::{
    honest_hosts_are_let_in, honest_hosts_are_reached, hosts_of_a_dealing_meet,
    unsent_links_greet_alone,
};
pub use ledger::Ledger;
pub use run_link::{RunLink, SealedRun};
pub use run_net::RunNet;
pub use seal::Seal;
pub use sealed_net::SealedNet;
