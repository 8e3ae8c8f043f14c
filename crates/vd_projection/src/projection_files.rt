//! What is stored of the program of each host can be read: its text is a file of a host's program, within all ranges.

mod laws;

pub use laws::{digests_are_bytes, stored_programs_are_read_back};
