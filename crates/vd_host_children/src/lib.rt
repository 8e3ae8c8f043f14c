//! The hosts of a program as children of this process: they are started in order, and what each of them prints is read.
#![tactic(auto)]

mod calls;
mod fault;
mod finishing;
mod output;
mod reading;
mod running;
mod starting;

pub use fault::ChildrenFault;
pub use running::run_children;
