//! Links over which only those are heard who have their key: each piece goes in a record with a code of its own.
#![tactic(auto)]

mod channel_handshake;
mod channel_net;
mod fault;
mod filling;
mod laws;
mod noted;
mod piece;
mod sealed_link;
mod session;
mod taking;

pub use channel_handshake::{ends_have_the_same_keys, hello_faults_tell, honest_ends_meet};
pub use channel_net::{
    Ledger, RunLink, RunNet, Seal, SealedNet, SealedRun, honest_hosts_are_let_in,
    honest_hosts_are_reached, hosts_of_a_dealing_meet, unsent_links_greet_alone,
};
pub use fault::SealFault;
pub use filling::fill;
pub use laws::{opened_is_covered, opened_is_front, opened_is_sent, sent_is_carried};
pub use piece::Piece;
pub use sealed_link::SealedLink;
pub use session::Session;
pub use taking::take_record;
