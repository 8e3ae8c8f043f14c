//! What is stored of the programs of hosts in an order that waits less can be read. Nothing is computed here: the clauses of the functions
//! are laws.

mod laws;

pub use laws::early_programs_are_read_back;
