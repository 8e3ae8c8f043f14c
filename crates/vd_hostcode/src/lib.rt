//! Host programs from their files, within the ranges of host code.
#![tactic(auto)]

mod blocks;
mod fault;
mod files;
mod host_text;
mod laws;
mod ranges;
mod steps;

pub use fault::CodeFault;
pub use files::read;
pub use host_text::{
    Digest, HostProgram, files_follow_the_grammar, host_file, parse, plan_of, print,
    texts_are_files,
};
pub use laws::written_programs_are_read;
