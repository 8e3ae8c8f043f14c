//! The drawing of a choice of protocols: its rows from above, columns and lanes from left to right, and an arrow for each word
//! that is moved, whose form says what leaves a host.
#![tactic(auto)]

mod all_rows;
mod arrows;
mod heads;
mod laws;
mod legend;
mod picture;
mod row_marks;

pub use laws::{lines_end_where_words_go, shapes_are_named};
pub use picture::drawing;
