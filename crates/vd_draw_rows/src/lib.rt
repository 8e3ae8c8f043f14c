//! The rows of a drawing of a choice of protocols: for each statement of a program what it does, where its slot stands,
//! which words are moved for it and how, and what that costs.
#![tactic(auto)]

mod laws;
mod lines;
mod moves;
mod parts;
mod row;
mod rows;
mod texts;
mod wire;

pub use laws::costs_add_up;
pub use lines::{is_printable, shown_line};
pub use moves::{arrow_of, is_seen, is_told};
pub use row::{Arrow, Kind, Line, Move, Row};
pub use rows::rows_of;
pub use texts::slot_name;
pub use wire::is_seen_on_the_way;
