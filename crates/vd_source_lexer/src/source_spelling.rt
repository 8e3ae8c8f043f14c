//! Texts of tokens by their kinds, and a text that has tokens of given kinds.

mod kinds;
mod spelling;
mod texts;

pub use kinds::{all_kinds, kinds_are_all};
pub use spelling::spell;
pub use texts::text_of;
