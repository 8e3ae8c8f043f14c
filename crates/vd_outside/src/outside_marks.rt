//! Marks, as a trait: names in the folders of files that are taken once, however many runs try, and random bytes.

mod marks;
mod places;

pub use marks::{Marks, MarksCall};
pub use places::mark_at;
