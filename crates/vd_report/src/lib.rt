//! Readers of the files that people write beside a source, and the texts that are printed.
#![tactic(auto)]

mod choice;
mod fault;
mod hosts;
mod inputs;
mod labels;
mod laws;
mod lines;
mod name_sets;
mod reports;
mod schedule;
mod token;

pub use choice::{choice_text, push_protocol};
pub use fault::ReadFault;
pub use hosts::{host_of, name_of};
pub use inputs::{inputs_follow_the_grammar, read_inputs};
pub use labels::{formula_text, labels_text};
pub use laws::{labels_are_written, links_are_read, sections_are_read, states_are_told};
pub use lines::{outputs_text, push_words_line};
pub use reports::{HostLine, HostLines, Talk, hosts_text, talk_text};
pub use schedule::{Schedule, read_schedule, schedules_follow_the_grammar};
