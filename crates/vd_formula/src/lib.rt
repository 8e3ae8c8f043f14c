//! Formulas over names, which are true or false at each set of them, and labels made of two formulas.
#![tactic(auto)]

mod forms;
mod formula;
mod label;
mod minimal;

pub use forms::FormFault;
pub use formula::Formula;
pub use label::Label;
