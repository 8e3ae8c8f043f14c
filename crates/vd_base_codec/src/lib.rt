//! Reading and writing of machine-written files, which have one spelling for each value: numbers, fields, and 32 bytes as 64
//! hexadecimal digits.
#![tactic(auto)]

mod cursor;
mod digits;
mod fault;
mod laws;
mod writing;

pub use cursor::{Cursor, offset};
pub use digits::{push_key, read_key};
pub use fault::{CodecFault, Stopped};
pub use laws::{keys_are_exact, numbers_are_exact};
pub use writing::push_field;
