//! How large the code of a host gets: what calls of back ends and commitments take, what each statement of a program makes by
//! itself, and that all of it is within the ranges of host code. Nothing is computed here: the clauses of the functions are laws.

mod laws;

pub use laws::{
    clear_calls_fit, code_is_in_range, commitments_fit, conversions_fit, shared_calls_fit,
    statements_are_short,
};
