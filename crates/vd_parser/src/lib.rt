//! Text to tree: the parser of sources, whose contract is exact for trees and for refusals.
#![tactic(auto)]

mod cursor;
mod exprs;
mod fault;
mod forms;
pub mod laws;
mod nesting;
mod operators;
mod parser;
mod prefixes;
mod sources;
mod statements;
mod whole;

pub use fault::ParseFault;
pub use whole::parse;
