//! All hosts of a program under a schedule: their machines are loaded, run, and reported. The laws say that they print
//! the program's outputs to them.

mod laws;
mod loading;
mod playing;
mod reporting;

pub use laws::{files_are_valid, sources_tell};
pub use playing::play;
pub use reporting::report;
