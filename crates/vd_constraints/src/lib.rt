//! The flow rules of a let-normal program: which part of which label has to act for what, and beside them what asks for each check.
#![tactic(auto)]

mod labels;
mod labels_origins;
mod origin;
mod rules;
mod steps;
mod system;

pub use labels::Labels;
pub use labels_origins::checks_are_asked_for;
pub use origin::Origin;
pub use rules::{Collected, constraints};
pub use system::{Bound, Check, Lower, Part, Place, System};
