//! The deal that explains other inputs to a host of a program of two hosts.
#![tactic(auto)]

mod equivocation_deals;
mod equivocation_steps;
mod excusing;
mod fault;
mod lines;
mod views_transcript;

pub use equivocation_deals::{excused_files_explain, short_kinds_are_exact};
pub use equivocation_steps::steps_of;
pub use excusing::excuse;
pub use fault::ViewFault;
pub use views_transcript::talk;
