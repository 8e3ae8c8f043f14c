//! What a host knows of inputs at a list of protocols: its own, and the clear words that come to it; and the first place at
//! which it differs between two inputs.

mod difference;
mod laws;
mod listener;
mod run;

pub use difference::view_difference;
pub use laws::differences_are_exact;
pub use listener::Listener;
