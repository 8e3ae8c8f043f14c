//! Certificates of a least assignment, and their text: each has one, and a reader that is exact.

mod certificate;
mod files;
mod reader;
mod writer;

pub use certificate::{Certificate, Mark};
pub use files::{files_have_one_outcome, texts_are_read_back};
