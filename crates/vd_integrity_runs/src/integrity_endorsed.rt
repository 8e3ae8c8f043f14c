//! The meaning of a program whose endorsed words come from a list. Nothing is computed here.

mod laws;

pub use laws::{own_words_make_the_run, words_decide_what_is_trusted};
