//! The messages between the server and an editor: what the body of a message asks for, and the texts of answers.
#![tactic(auto)]

mod answers;
mod asked;
mod kinds;
mod members;
mod questions;
mod texts;
mod values;

pub use asked::read_message;
pub use kinds::{
    Answer, Code, Document, Edits, Fault, Id, Incoming, Outgoing, Published, Question, Range,
    Symbol, Word,
};
pub use texts::text_of;
