//! What the program does around the top call: it reads the files of a command line ahead, and makes the lines that tell a person why
//! something ended, with the names of hosts that stand before them.
#![tactic(auto)]

mod ahead;
mod reasons;
mod speaker;
mod telling;

pub use ahead::{named_files_are_ahead, read_ahead};
pub use reasons::packets_are_read;
pub use speaker::speaker_of;
pub use telling::{Reasons, copy_reason, copy_text, tell_fault, tell_no_text, tell_success};
