//! What depends on what at once.

use vd_base::{HostId, SlotId};

/// What can depend on something, or be depended on.
#[derive(Clone, Copy, PartialEq, Eq)]
pub(crate) enum Node {
    /// All that reaches the host in clear.
    Told,
    /// The words of a slot.
    Slot(SlotId),
    /// The inputs of a host.
    Inputs(HostId),
}

/// What stands at `from` depends on what stands at `to`.
#[derive(Clone, Copy, PartialEq, Eq)]
pub struct Edge {
    pub from: Node,
    pub to: Node,
}
