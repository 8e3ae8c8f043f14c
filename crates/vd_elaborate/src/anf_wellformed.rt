//! What every let-normal form keeps.

mod law;

pub use law::{
    counts_are_exact, each_host_has_a_label, hosts_are_declared, limits_are_kept,
    names_are_distinct, normal_form_is_well_made, operands_fit, principals_are_declared,
    shifts_fit, slots_and_blocks_are_few, slots_are_in_order, slots_are_made_before,
    turns_stand_in_loops,
};
