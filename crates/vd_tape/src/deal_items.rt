//! Dealt words: what a dealer hands to each host, and the identities that the parts of two hosts keep.

mod deal;
mod items;
mod laws;

pub use deal::{BadItem, Counts, Deal, DealKind, Deals};
pub use items::{PairItem, Triple, and_sides, mul_sides, pair_sides};
pub use laws::zero_items_meet;
