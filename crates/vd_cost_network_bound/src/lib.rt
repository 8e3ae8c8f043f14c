//! The bound by arcs of one prefix under shifts, without tables of these shifts: what does not depend on shifts is made once,
//! and then each bound costs about as much as the cells that the prefix leaves open. And what a search asks of those who find
//! shifts (`Ascents`), so that the search names none of them.
#![tactic(auto)]

mod ascents;
mod least;
mod made;
mod making;
mod summing;
mod values;

pub use ascents::{ArcAscent, Ascents};
pub use made::NetworkBound;
