//! Shifts of uses and of arcs by block-coordinate ascent, and a walk down the lists of a problem that finds shifts for single
//! prefixes (`Sweeps`). Nothing is promised of the amounts. Whatever shifts a search goes by, its certificate shows what it found.
#![tactic(auto)]

mod ascent;
mod climbing;
mod cost_network_dominance;
mod cost_network_shifts;
mod passing;
mod refutation;
mod space_ascent;
mod sweeps;
mod walk;
mod walker;

pub use ascent::Ascent;
pub use cost_network_shifts::shifts_take_the_amounts;
pub use sweeps::Sweeps;
