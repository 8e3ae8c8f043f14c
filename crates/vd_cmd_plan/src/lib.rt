//! The plan of a command: the files that it fetches, the files that it stores, what it prints, and how a run of it ends.
#![tactic(auto)]

mod answer;
mod cmd_programs;
mod codes;
mod deliver;
mod ending;
mod host_lines;
mod labelled;
mod lines;
mod loading;
mod numbered;
mod refusals;
mod shown;
mod status;

pub use answer::Answer;
pub use cmd_programs::{program_in, program_outcomes_exist};
pub use codes::{codes_tell_statuses, numbers_are_in_order};
pub use deliver::store_all;
pub use ending::{finish, print_text};
pub use labelled::Labelled;
pub use lines::tell;
pub use loading::load;
pub use numbered::file_name;
pub use refusals::{check_status, input_status, rule_status, schedule_status};
pub use shown::{names_are_shown_plain, shown_byte};
pub use status::{FlowFault, HostStatus, ReportFault, Status, TableFault};
