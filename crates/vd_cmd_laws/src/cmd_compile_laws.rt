//! What `compile` stores can be read, and the names of a text take no more than the text. Nothing is computed here: the clauses of
//! the functions are laws.

mod laws;

pub use laws::{compiled_files_are_read_back, compiled_files_can_be_read, host_names_fit};
