//! The command `run`: all hosts of a source on one machine. The source is compiled, the files of its hosts are stored, the
//! hosts are run as children, and what they printed is reported.
#![tactic(auto)]

mod commands;
mod compiled;
mod compiling;
mod fault;
mod laws;
mod report;
mod run_command;
mod running;
mod statuses;

pub use laws::{
    each_host_has_its_line, ended_runs_report, faults_of_children_are_named, runs_are_complete,
    runs_ask_in_order, statuses_have_causes,
};
pub use run_command::run;
