//! Bounds by arcs: what guards and indexes cost is a term of two points too, which shifts may touch, and amounts of shifts
//! count in 1/256 of a unit of cost.

mod laws;

pub use laws::{
    network_bounds_are_below_costs, network_bounds_end_in_costs, network_trees_are_bounded,
    programs_have_few_arcs,
};
