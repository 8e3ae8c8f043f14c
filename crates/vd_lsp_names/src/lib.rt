//! The names of a source: the place of each, and its declaration.
#![tactic(auto)]

mod asking;
mod expressions;
mod forms;
mod kinds;
mod laws;
mod statements;
mod texts;
mod whole;

pub use asking::{declarations, places_of, unused};
pub use kinds::{Declared, Role, Use};
pub use laws::sights_are_the_resolvers;
pub use texts::{names_of, words_of};
pub use whole::uses_of;
