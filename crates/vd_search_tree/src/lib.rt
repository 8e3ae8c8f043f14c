//! Lists that are made one choice at a time, walked from prefix to prefix: what a search for the least of them needs. And
//! the shifts of costs under which their bounds are taken.
#![tactic(auto)]

mod prefixes;
mod room;
mod search_certificate;
mod shift;

pub use prefixes::Prefixes;
pub use room::no_choices;
pub use search_certificate::{Certificate, Mark, files_have_one_outcome, texts_are_read_back};
pub use shift::Shift;
