ghost use Rattle.std.specs.Prelude.{◌≡◌};
ghost use Rattle.vd_cmd_run.specs.declared.fault.RunFault.TheVariants as run_fault;

use std::alloc::AllocError;
use thiserror::Error;
use vd_base::Failed;
use vd_cmd_plan::Status;
use vd_host_children::ChildrenFault;

/// Why the hosts of a program were not all run and reported.
#[derive(Debug, Drop, Error)]
pub(crate) enum RunFault {
    /// There was no memory left.
    #[error("memory")]
    Memory,
    /// A host's file was not stored; the status says why.
    #[error("a file of a host was not stored")]
    Store(Status),
    /// A child failed, or did not print what a host prints.
    #[error("{0}")]
    Children(ChildrenFault),
    /// A write of the report failed.
    #[error("a write of the report failed")]
    Write,
}

impl From<AllocError> for RunFault {
    ghost from_gives = { λ _ fault. fault ≡ run_fault.Memory };

    fn from(_: AllocError) -> Self {
        RunFault::Memory
    }
}

impl From<Status> for RunFault {
    ghost from_gives = { λ status fault. fault ≡ run_fault.Store status };

    fn from(status: Status) -> Self {
        RunFault::Store(status)
    }
}

impl From<ChildrenFault> for RunFault {
    ghost from_gives = { λ cause fault. fault ≡ run_fault.Children cause };

    fn from(cause: ChildrenFault) -> Self {
        RunFault::Children(cause)
    }
}

impl From<Failed> for RunFault {
    ghost from_gives = { λ _ fault. fault ≡ run_fault.Write };

    fn from(_: Failed) -> Self {
        RunFault::Write
    }
}
