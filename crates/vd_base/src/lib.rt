//! The types, limits and definitions that all crates of the compiler share.
#![tactic(auto)]

mod arithmetic;
mod base_lists;
mod faults;
mod form;
mod host_sets;
mod host_state;
mod ids;
mod lexical;
pub mod limits;
mod lists;
mod operations;
mod packet;
mod protocols;
mod rows;
mod sight;
mod text;
mod words;

pub use arithmetic::combine;
pub use base_lists::{Boxed, Items};
pub use faults::{CallFault, Failed, FileFault};
pub use form::Form;
pub use host_state::HostState;
pub use ids::{HostId, SlotId, Span};
pub use lexical::{
    digits_len, is_digit, is_keyword, is_letter, is_name, is_numeral, is_space, number, word_len,
};
pub use lists::{Bytes, Inputs, Name, Names, Outputs, Words};
pub use operations::{Kind, Op};
pub use packet::Packet;
pub use protocols::{
    HostSet, Proto, has_clear, holders, holders_are_listed, is_holder, is_same, proto_of,
    protocol_at, same_protocols_are_one,
};
pub use rows::Row;
pub use sight::Scope;
pub use text::{Text, Texts};
pub use words::{inputs_fit, word_fits, words_fit};
