//! The program of a source that protocols are chosen for and that is run: branches on what no host may read are selections, and
//! divisions that no protocol computes are loops.
#![tactic(auto)]

mod plain;
mod program;
mod rewrite_boolean_guards;
mod rewrite_labels;
mod rewrite_unchanged;

pub use program::executed_program;
pub use rewrite_boolean_guards::resolved_sources_have_boolean_guards;
pub use rewrite_labels::{
    least_labels_do_not_rise, selections_keep_labels, turned_programs_can_be_labelled,
};
pub use rewrite_unchanged::{chosen_divisions_stay, chosen_programs_stay};
