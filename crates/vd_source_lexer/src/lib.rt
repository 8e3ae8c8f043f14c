//! The tokens of a source: its names, numbers, keywords and symbols, in order.
#![tactic(auto)]

mod lexer;
mod piece;
mod source_ll1;
mod source_spelling;
mod token;

pub use lexer::{keywords_are_those_of_names, lexing_is_determined, tokens};
pub use source_ll1::{fronts_begin, machine_is_exact, one_tree, texts_have_trees};
pub use source_spelling::{all_kinds, kinds_are_all, spell, text_of};
pub use token::{LexFault, Token, TokenKind};
