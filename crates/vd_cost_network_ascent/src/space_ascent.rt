//! Shifts of uses by block-coordinate ascent: the sweeps over points and arcs, made over the slots and uses alone of a problem, and
//! in whole units at their end. Nothing is promised of the amounts. Whatever shifts a search goes by, its certificate shows what it
//! found.

mod ascent;
mod climbing;
mod tables;

pub use ascent::plain_shifts;
