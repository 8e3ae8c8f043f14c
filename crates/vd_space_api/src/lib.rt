//! The space of all lists of protocols for the slots of a program: which of them are valid, what they cost, and a bound below
//! that.
#![tactic(auto)]

mod bound;
mod high;
mod least;
mod places;
mod space;
mod space_shifts;

pub use space::Space;
pub use space_shifts::{lesser_number, price, usual, usual_shifts_are_few, weighed_cost};
