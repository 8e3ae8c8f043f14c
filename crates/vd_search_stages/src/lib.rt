//! The choice of protocols for a problem, with a certificate that the checker accepts.
#![tactic(auto)]

mod arc_tables;
mod confirming;
mod laws;
mod network;
mod optimum;
mod selecting;
mod so_far;
mod stages;
mod trying;
mod walking;

pub use confirming::confirm;
pub use laws::{problems_have_one_choice, validities_agree};
pub use optimum::{Assignment, Optimum, select};
