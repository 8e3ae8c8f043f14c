//! The algebra of words of 32 bits: operations as circuits of and, xor and shifts, and words that two hosts share.
//! The functions here do nothing: the contract of each is a law.

mod circuits;
mod sharing;

pub use circuits::{
    bitwise_circuits, choice_circuits, circuits_compute, comparison_circuits, gates_compute,
    sum_circuits,
};
pub use sharing::{
    bits_are_shared, bits_part_by_part, conversions_keep_the_word, items_give_products,
    sums_are_shared, sums_part_by_part,
};
