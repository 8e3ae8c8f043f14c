//! Whose inputs can bear on a host's outputs: outside of what is declassified to it, and declassified words included.
#![tactic(auto)]

mod around;
mod dependence;
mod edge;
mod influence;
mod influence_walk;
mod integrity_laws;
mod laws;
mod marks;
mod noninter_laws;
mod reached;
mod reader;
mod walk;

pub use dependence::depends;
pub use influence::influences;
pub use integrity_laws::{
    declassifications_are_robust, endorsements_are_transparent, influences_are_trusted,
    influences_tell, trusted_words_are_kept, who_trusts,
};
pub use laws::{programs_have_dependences, programs_have_influences};
pub use noninter_laws::{
    inputs_that_agree_tell_the_same, reached_hosts_are_enough, reached_hosts_are_single,
    what_is_named_is_visible,
};
