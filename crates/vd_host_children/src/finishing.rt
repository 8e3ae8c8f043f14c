ghost use Rattle.std.specs.Prelude.{◌≡◌, ◌<◌};
ghost use Rattle.vd_host_children.specs.Finishing.{Ends};

use crate::ChildrenFault;
use crate::calls::fault_of;
use vd_base::HostId;
use vd_outside::Spawner;

/// Finishes a child whose output has ended. A status other than 0 is a fault.
pub(crate) fn finish<S: Spawner>(
    spawner: &mut S,
    child: u32,
    host: HostId,
) -> Result<(), ChildrenFault>
    requires { child < (S.view spawner.old).given }
    ensures { Ends child host (S.view spawner.old) (S.view spawner.new) result }
{
    match spawner.finish(child) {
        Ok(status) => {
            if status == 0 {
                Ok(())
            } else {
                Err(ChildrenFault::Status(host, status))
            }
        }
        Err(fault) => Err(fault_of(host, fault)),
    }
}
