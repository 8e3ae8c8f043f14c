//! The language server: the faults of a text, what is answered to each message, and the stream of frames.
#![tactic(auto)]

mod answering;
mod checking;
mod faults;
mod hovers;
mod laws;
mod names;
mod responding;
mod serving;
mod states;

pub use faults::faults_of;
pub use laws::faults_are_those_of_labels;
pub use responding::{Step, Turn, flush, respond};
pub use serving::{Ending, ServeFault, Stop, answer_stream, serve};
pub use states::{Phase, Server};
