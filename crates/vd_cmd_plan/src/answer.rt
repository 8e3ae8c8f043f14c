//! What a command comes to.

use crate::Status;
use vd_base::{Bytes, Items};
use vd_outside::Stored;

/// What a command comes to: its status, the files that it stores first, and what it prints.
#[derive(Drop)]
pub struct Answer {
    pub status: Status,
    pub stores: Items<Stored>,
    pub printed: Bytes,
}
