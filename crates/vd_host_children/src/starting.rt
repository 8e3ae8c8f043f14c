ghost use Rattle.std.specs.Prelude.{◌≡◌, ◌<◌, ◌+◌, IfOk, OnOk};
ghost use Rattle.vd_host_children.specs.Starting.{Begins};

use crate::ChildrenFault;
use crate::calls::fault_of;
use crate::finishing::finish;
use crate::output::is;
use vd_base::{HostId, Texts};
use vd_outside::Spawner;

/// Starts a host's child, and reads its first line, which is `listening`. It gives the number of the child.
pub(crate) fn start<S: Spawner>(
    spawner: &mut S,
    host: HostId,
    program: &str,
    words: &Texts,
) -> Result<u32, ChildrenFault>
    requires { (S.view spawner.old).given < u32.MAX }
    ensures begins { Begins program.now words.now host (S.view spawner.old) (S.view spawner.new) result }
    ensures number { IfOk result (λ child. child ≡ (S.view spawner.old).given) }
    ensures one_more { OnOk result ((S.view spawner.new).given ≡ (S.view spawner.old).given + 1) }
{
    let child = match spawner.start(program, words) {
        Ok(child) => child,
        Err(fault) => return Err(fault_of(host, fault)),
    };
    let line = match spawner.line(child) {
        Ok(line) => line,
        Err(fault) => return Err(fault_of(host, fault)),
    };
    match line {
        Some(line) => {
            if is(line.as_slice(), b"listening") {
                Ok(child)
            } else {
                Err(ChildrenFault::Line(host))
            }
        }
        None => {
            finish(spawner, child, host)?;
            Err(ChildrenFault::Line(host))
        }
    }
}
