//! Programs for which protocols can be chosen stay as they are.

mod law;

pub use law::{chosen_divisions_stay, chosen_programs_stay};
