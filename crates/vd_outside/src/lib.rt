//! The outside of the compiler as traits: files, sinks, links, nets and spawners of children. Each object counts its
//! faults and, where it tells, shows what it holds.
#![tactic(auto)]

mod child;
mod faults;
mod files;
mod line;
mod link;
mod net;
mod outside_marks;
mod recorder;
mod sending;
mod sink;
mod spawner;
mod stored;
mod writing;

pub use child::Child;
pub use faults::FetchFault;
pub use files::{Files, FilesCall};
pub use line::{LINE_BYTES, Line};
pub use link::Link;
pub use net::{Net, NetCall};
pub use outside_marks::{Marks, MarksCall, mark_at};
pub use recorder::Recorder;
pub use sending::send_all;
pub use sink::Sink;
pub use spawner::{Spawner, SpawnerCall};
pub use stored::Stored;
pub use writing::write_all;
