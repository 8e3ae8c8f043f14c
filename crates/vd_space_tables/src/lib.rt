//! The tables of a problem and shifts: what its bounds grow by with each choice, and the sums of the empty prefix.
#![tactic(auto)]

mod assembly;
mod charges;
mod gains;
mod made;
mod parts;
mod shifted;
mod space_terms;
mod start;
mod tellings;
mod values;

pub use assembly::{all_protocols, tables};
pub use space_terms::{
    HasEnds, Rows, candidates, index_arcs, index_prices, move_prices, shift_sums, shifted_use_arcs,
    slot_shifts, use_arcs,
};
pub use values::merged_values;
