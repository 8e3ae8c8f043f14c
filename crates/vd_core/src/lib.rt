//! The syntax tree of a source, and the let-normal program.
#![tactic(auto)]

mod named;
mod normal;
mod numbers;
mod program;
mod source;

pub use named::has_names;
pub use normal::{NormalForm, Right, Slot, Stmt, Written};
pub use program::Program;
pub use source::{
    Direction, Expr, Function, Host, Ident, Infix, Parameter, Prefix, Segment, Sign, Source,
    Statement, WrittenForm, WrittenLabel,
};
