//! The status of a run.

ghost use Rattle.std.specs.Prelude.{◌≡◌};
ghost use Rattle.vd_cmd_run.specs.Statuses.{child_status, run_status};

use crate::fault::RunFault;
use vd_base::Names;
use vd_cmd_plan::Status;
use vd_host_children::ChildrenFault;

/// The status where the children that play hosts with these names did not come to an end.
fn child_status(names: Names, fault: ChildrenFault) -> Status
    ensures { result ≡ child_status names fault }
{
    match fault {
        ChildrenFault::Memory => Status::Memory,
        ChildrenFault::Failed(_) | ChildrenFault::Line(_) | ChildrenFault::Status(_, _) => {
            Status::ChildFault(names, fault)
        }
    }
}

/// The status of a run of hosts with these names.
pub(crate) fn run_status(names: Names, came: Result<(), RunFault>) -> Status
    ensures { result ≡ run_status names came }
{
    match came {
        Ok(()) => Status::Ended,
        Err(RunFault::Memory) => Status::Memory,
        Err(RunFault::Store(status)) => status,
        Err(RunFault::Children(fault)) => child_status(names, fault),
        Err(RunFault::Write) => Status::WriteFault,
    }
}
