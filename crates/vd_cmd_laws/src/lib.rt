//! What the commands `labels`, `certify`, `choose` and `compile` say where they end well, in the words of labels, costs and
//! codes; nothing is computed.
//! What `compile` stores can be read, and the names of a text take no more than the text. Nothing is computed here: the clauses of
//! the functions are laws.
//! What the files that `deal` stores hold, read back; nothing is computed.
#![tactic(auto)]

mod cmd_choice_laws;
mod cmd_compile_laws;
mod cmd_deal_laws;

pub use cmd_choice_laws::answers_tell;
pub use cmd_compile_laws::{
    compiled_files_are_read_back, compiled_files_can_be_read, host_names_fit,
};
pub use cmd_deal_laws::{dealt_files_are_taken, keyed_dealt_files_are_taken};
