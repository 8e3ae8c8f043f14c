//! The choice of a protocol for each slot: which lists of protocols are valid, what they cost, and bounds below that.
#![tactic(auto)]

mod cost_network;
mod laws;
mod problem;
mod reading;
mod space_optimum;
mod space_prefix_counts;
mod sums;
mod validity;

pub use cost_network::{
    network_bounds_are_below_costs, network_bounds_end_in_costs, network_trees_are_bounded,
    programs_have_few_arcs,
};
pub use laws::{
    bounds_are_below_costs, bounds_end_in_costs, prefixes_grow, problems_are_bounded,
    programs_have_problems, terms_go_by_place,
};
pub use problem::{Guard, Index, Making, Output, Problem, Use};
pub use space_optimum::{cheapest_assignments_are_cheapest_lists, choices_cost_least};
pub use space_prefix_counts::{counts_are_worked, firm_is_at_most_hard, nothing_left_is_dear};
pub use sums::lesser_of;
pub use validity::{
    are_holders_told, can_read, has_candidate, is_candidate_at, is_guard_told, is_index_told,
    is_part, output_can_move, use_can_move,
};
