//! What a source and a let-normal program mean in clear: the outputs to each host, from what the hosts hand in.
#![tactic(auto)]

mod comparisons;
pub mod held;
pub mod hosts;
mod names;
mod program;
mod source;
mod stores;
mod world;
mod wraps;

pub use comparisons::comparisons_order;
pub use program::clear_core;
pub use source::{SourceRun, clear_source, watch_source};
pub use stores::{put_array, put_element, put_word, zeros};
pub use world::World;
pub use wraps::Wrap;
