ghost use Rattle.std.specs.Prelude.{◌≡◌};
ghost use Rattle.vd_host_children.specs.declared.fault.ChildrenFault.TheVariants as children_fault;

use std::alloc::AllocError;
use thiserror::Error;
use vd_base::HostId;

/// Why the children did not come to an end.
#[derive(Clone, Copy, Debug, PartialEq, Eq, Error)]
pub enum ChildrenFault {
    /// There was no memory left.
    #[error("memory")]
    Memory,
    /// A call of the spawner for this host failed, which it has counted.
    #[error("a call for the child of host {} failed", .0.0)]
    Failed(HostId),
    /// The lines of this host's child are not those of a host, or end too early.
    #[error("the lines of host {} are not those of a host", .0.0)]
    Line(HostId),
    /// This host's child ended with this status, which is not 0.
    #[error("host {} ended with status {}", .0.0, .1)]
    Status(HostId, u32),
}

impl From<AllocError> for ChildrenFault {
    ghost from_gives = { λ _ fault. fault ≡ children_fault.Memory };

    fn from(_: AllocError) -> Self {
        ChildrenFault::Memory
    }
}
