//! Sentences on flow faults: which host or written label may not read, or does not answer for, what, and by which steps it comes to
//! that.

mod explained;
mod flow;
mod offsets;
mod phrases;
mod sentences;
mod steps;

pub use explained::flow_steps;
pub use flow::flow_remark;
pub(crate) use steps::slot_phrase;
