//! What the hosts of a program take, and how much to deal for them: a deal of these sizes is enough for all inputs under every
//! schedule, and where no branch takes differently no smaller one is.

mod laws;
mod needed;

pub use laws::{deals_have_their_sizes, sizes_are_enough, sizes_are_least};
pub use needed::needs_of_program;
