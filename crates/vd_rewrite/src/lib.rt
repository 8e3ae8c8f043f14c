//! Programs made anew, statement by statement: what becomes of each, and its slots and blocks numbered in program order.
#![tactic(auto)]

mod copies;
mod guard;
mod keep;
mod limits;
mod made;
mod marks;
mod stop;

pub use copies::{copy_slot, fresh_slot, kind_of, with_parts};
pub use guard::Guard;
pub use keep::{keep_array, keep_let, keep_output, keep_put, keep_store, keep_variable};
pub use limits::fit;
pub use made::Made;
pub use marks::is_marked;
pub use stop::Stop;
