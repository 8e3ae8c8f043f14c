//! Commitments: a host binds itself to a word by a digest that another host keeps, and reveals the word later.
#![tactic(auto)]

mod calls;
mod ends;
mod laws;

pub use calls::{commit, reveal};
pub use ends::{Held, Seen};
pub use laws::what_is_revealed_was_committed;
