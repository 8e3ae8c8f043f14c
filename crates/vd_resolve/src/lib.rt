//! Names, kinds and limits of a source: the first fault, or a source that has none.
#![tactic(auto)]

mod arguments;
mod declarations;
mod expression;
mod fault;
mod function;
mod kinds;
mod limits;
mod met;
mod names;
mod parts;
mod resolved;
mod simple;
mod size;
mod statement;
mod symbol;
mod table;
mod whole;

pub use fault::{NameFault, Quantity};
pub use met::Met;
pub use resolved::Resolved;
pub use whole::resolve;
