//! The words of the command line.
#![tactic(auto)]

mod command;
mod forms;
mod groups;
mod help_words;
mod numbers;
mod own;
mod reading;

pub use command::{
    CheckWords, ColumnWords, Command, CommandFault, EarlyWords, ExcuseWords, FilesCommand,
    HostWords, KeyDealWords, KeySource, NeedsKind, NeedsWords, ReplayWords, ReportWords,
    RevealsWords, RunWords,
};
pub use help_words::help_is_read;
pub use own::own_text;
pub use reading::read_words;
