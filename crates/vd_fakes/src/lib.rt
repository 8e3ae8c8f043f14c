//! The outside in memory, for tests: files, sinks, links, nets, marks and spawners. Each fails at the calls that it is given, and passes
//! so many bytes a call at most. Of links there is also one that never fails. A directory, which tells what it holds, fails at the changes
//! that it is given.
#![tactic(auto)]

mod failures;
mod finding;
mod mem_directory;
mod mem_files;
mod mem_link;
mod mem_marks;
mod mem_net;
mod mem_sink;
mod mem_spawner;
mod starting;
mod sure_link;
mod waiting;

pub use failures::Failures;
pub use mem_directory::{Entry, MemDirectory};
pub use mem_files::MemFiles;
pub use mem_link::MemLink;
pub use mem_marks::{Mark, MemMarks};
pub use mem_net::MemNet;
pub use mem_sink::MemSink;
pub use mem_spawner::MemSpawner;
pub use sure_link::SureLink;
