//! The bound of a prefix, kept along a path from the empty prefix down: a further choice costs about the degree of its slot.
#![tactic(auto)]

mod guards;
mod naming;
mod numbers;
mod path;
mod steps;
mod tables;
mod transfers;

pub use guards::{Telling, guard_cost};
pub use naming::Naming;
pub use numbers::namings;
pub use path::Path;
pub use tables::{Sums, Tables, grown};
pub use transfers::{Arc, Transfer, amount_at, number_of};
