//! The programs of all hosts: what each host executes of a program at a valid assignment of protocols.
#![tactic(auto)]

mod choreography_validity;
mod code_sizes;
mod codes;
mod laws;
mod projection_files;
mod projection_reordered;
mod projection_reordered_files;

pub use choreography_validity::assignments_can_run;
pub use code_sizes::{
    clear_calls_fit, code_is_in_range, commitments_fit, conversions_fit, shared_calls_fit,
    statements_are_short,
};
pub use codes::{codes_of, host_count, joint_lines, split};
pub use laws::host_codes_can_run;
pub use projection_files::{digests_are_bytes, stored_programs_are_read_back};
pub use projection_reordered::{early_codes_run_alike, early_texts_are_careful, split_early};
pub use projection_reordered_files::early_programs_are_read_back;
