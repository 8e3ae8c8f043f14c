//! Branches on what no host may read, as selections: both branches are executed, and each store keeps the old word where its
//! branch is not taken.
#![tactic(auto)]

mod booleans;
mod hidden;
mod law;
mod turning;
mod walk;

pub use hidden::{hidden_guards, turn_labelled};
pub use law::{
    hidden_branches_go, selections_are_well_made, selections_keep_outputs, turning_keeps_outputs,
};
