//! The arcs of a problem: for each use and each index what it costs at least, by the places of its slots, without and
//! under cost shifts.

mod arcs;
mod places;
mod prices;
mod sums;

pub use arcs::{index_arcs, shifted_use_arcs, use_arcs};
pub use places::candidates;
pub use prices::{index_prices, move_prices};
pub use sums::{HasEnds, Rows, shift_sums, slot_shifts};
