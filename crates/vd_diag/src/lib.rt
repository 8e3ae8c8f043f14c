//! What is said of a file and how it is printed: remarks, the parts of sentences, and the sentences on files and words that
//! need nothing of a source.
#![tactic(auto)]

mod diag_place;
mod fault;
mod files;
mod inputs;
mod laws;
mod parts;
mod remark;
mod tables;
mod telling;
mod usage;

pub use diag_place::{excerpt, headline, line_behind, line_number, spot};
pub use fault::TellFault;
pub use files::{
    certificate_sentence, deal_sentence, host_sentence, no_assignment_sentence, program_sentence,
    schedule_sentence, spent_sentence,
};
pub use inputs::{inputs_sentence, token_at};
pub use laws::places_count_from_one;
pub use parts::{three, word_at};
pub use remark::Remark;
pub use tables::in_table;
pub use telling::{tell, tell_place};
pub use usage::usage_of;
