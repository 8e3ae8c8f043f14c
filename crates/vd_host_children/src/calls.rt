ghost use Rattle.std.specs.Prelude.{◌≡◌};
ghost use Rattle.vd_host_children.specs.Faults.{fault_at};

use crate::ChildrenFault;
use vd_base::{CallFault, HostId};

/// The fault of a call for a host.
pub(crate) fn fault_of(host: HostId, fault: CallFault) -> ChildrenFault
    ensures { result ≡ fault_at host fault }
{
    match fault {
        CallFault::Failed => ChildrenFault::Failed(host),
        CallFault::Memory => ChildrenFault::Memory,
    }
}
