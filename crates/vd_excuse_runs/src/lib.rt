//! One run of hosts, act by act, over registers that grow as they are written and lists that are followed by zeros.
#![tactic(auto)]

mod registers;
mod run;
mod side;

pub use run::Run;
pub use side::{Side, Taken};
