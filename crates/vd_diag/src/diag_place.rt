//! Places in a text that a person wrote: the line and the column of an offset, and the excerpt that shows them.

mod excerpts;
mod lines;
mod terminal;

pub use excerpts::{excerpt, headline, spot};
pub use lines::{line_behind, line_number};
