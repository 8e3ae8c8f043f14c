//! Divisions of secrets, which no protocol computes, as loops of 32 turns of shift, compare and subtract.
#![tactic(auto)]

mod division;
mod law;
mod lengthening;
mod marks;
mod nesting;
mod steps;
mod walk;

pub use law::{
    divisions_without_a_candidate_go, each_turn_divides_the_bits_so_far,
    long_divisions_are_well_made, long_divisions_keep_outputs,
};
pub use marks::lengthen_labelled;
