//! A host's program and its text: each program has one, and a reader that is exact.

mod blocks;
mod files;
mod heading;
mod laws;
mod plan;
mod program;
mod reading;
mod words;
mod writing;

pub use files::parse;
pub use laws::{files_follow_the_grammar, texts_are_files};
pub use plan::{host_file, plan_of};
pub use program::{Digest, HostProgram};
pub use writing::print;
