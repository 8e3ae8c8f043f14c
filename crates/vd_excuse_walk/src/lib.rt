//! The deal that explains other inputs to a host, computed along the steps of both runs.
#![tactic(auto)]

mod alone;
mod deals;
mod equivocation_laws;
mod explaining;
mod items;
mod laws;
mod walker;

pub use equivocation_laws::{Hidden, Operands, Part, Step, walks_excuse};
pub use explaining::{Walked, walk};
pub use laws::walks_are_followed;
