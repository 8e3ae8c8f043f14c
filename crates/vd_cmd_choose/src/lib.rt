//! The commands `choose`, `certify` and `gen`: they choose the protocols for a source, check a certificate of a choice, and make sources
//! to try it on.
#![tactic(auto)]

mod certificates;
mod certify_command;
mod choose_command;
mod cmd_trial_laws;
mod gen_command;
mod spaces;

pub use certify_command::certify;
pub use choose_command::choose;
pub use cmd_trial_laws::{generated_sources_are_read, generated_texts_are_sources};
pub use gen_command::generate_source;
pub use spaces::least_space;
