//! Words that two hosts share: by parts of which the word is the sum, or the exclusive or.
#![tactic(auto)]

mod backend_algebra;
mod pair;
mod product;
mod shares;

pub use backend_algebra::{
    bits_are_shared, bits_part_by_part, bitwise_circuits, choice_circuits, circuits_compute,
    comparison_circuits, conversions_keep_the_word, gates_compute, items_give_products,
    sum_circuits, sums_are_shared, sums_part_by_part,
};
pub use pair::{Pair, tell};
pub use shares::{PartRegisters, Sharing};
