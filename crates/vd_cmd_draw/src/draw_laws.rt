//! What is true of every drawing: the costs of its rows add up, and what it shows a host is what the host can read. Nothing is
//! computed here: the clauses of the functions are laws.

mod laws;

pub use laws::{
    arrows_are_told_apart, arrows_show_what_is_told, drawn_costs_add_up, heading_tells_the_cost,
    told_words_come,
};
