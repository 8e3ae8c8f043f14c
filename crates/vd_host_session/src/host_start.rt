//! A host that is ready to be run, from what its files hold: its program, its inputs and its deal.

mod starting;

pub use starting::{Ready, start};
