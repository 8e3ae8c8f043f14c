//! What all hosts of a program are to run on: their inputs, their deals and a schedule, each fetched and read.
#![tactic(auto)]

mod checks;
mod deals;
mod loading;
mod report_laws;
mod run_files;
mod schedules;

pub use checks::expect_consistent;
pub use deals::load_deals;
pub use loading::load_run_files;
pub use report_laws::{choice_lines_tell_the_choice, outcomes_are_single, outcomes_exist};
pub use run_files::RunFiles;
