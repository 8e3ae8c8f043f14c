//! Host programs.

use vd_base::{HostId, Items, Names};
use vd_execution::Instr;

/// A SHA-256 digest, by which the programs that were made together know each other.
#[derive(Clone, Copy)]
pub struct Digest {
    pub bytes: [u8; 32],
}

/// What one host executes.
#[derive(Drop)]
pub struct HostProgram {
    /// The names of all hosts.
    pub hosts: Names,
    /// The host whose program it is.
    pub me: HostId,
    /// What the programs of all hosts were made from.
    pub plan: Digest,
    /// The instructions in text order, without the last `end` of the text.
    pub code: Items<Instr>,
}
