//! What is said to the person at a terminal besides the line of a status: the place of a fault, and the sentences on it.
#![tactic(auto)]

mod alone;
mod diag_branches;
mod diag_choice;
mod diag_flow;
mod files;
mod laws;
mod programs;
mod remarks;
mod telling;
mod words;
mod wraps;
mod wrong;

pub use diag_branches::{barriers_are_what_is_not_pure, branch_remark};
pub use diag_choice::{
    no_assignment_remark, search_sentence, space_for, valid_lists_stand_at_candidates,
};
pub use diag_flow::{flow_remark, flow_steps};
pub use laws::{faults_are_shown_in_their_files, no_secret_is_told};
pub use remarks::remark_on;
pub use telling::{Destination, say_more, steps_on};
pub use wraps::say_wraps;
