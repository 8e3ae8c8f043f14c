//! What two hosts send each other over a link: a greeting, and then packets of words. The type of a session says how far
//! it has come, so that only one that was greeted sends and receives packets.
#![tactic(auto)]

mod faults;
mod frame;
mod greeting;
mod laws;
mod packet;
mod receiving;
mod session;
mod taking;

pub use faults::{GreetFault, LinkFault};
pub use frame::greeting_of;
pub use laws::{faults_exclude_greetings, faults_exclude_packets, streams_have_one_reading};
pub use packet::words_of;
pub use session::{Closed, Fresh, Greeted, Session};

/// The SHA-256 digest of a plan.
pub type Digest = [u8; 32];
