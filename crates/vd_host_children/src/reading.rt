ghost use Rattle.std.specs.Prelude.{◌≡◌, ◌<◌};
ghost use Rattle.vd_host_children.specs.Reading.{Reads};

use crate::ChildrenFault;
use crate::calls::fault_of;
use crate::finishing::finish;
use crate::output::{Output, take_line};
use std::alloc::Global;
use vd_base::{HostId, Words};
use vd_outside::Spawner;

/// Reads the lines of a host's child behind its first one to their end, and finishes it: the words that it printed.
pub(crate) fn read<S: Spawner>(
    alloc: Global,
    spawner: &mut S,
    child: u32,
    host: HostId,
) -> Result<Words, ChildrenFault>
    requires { child < (S.view spawner.old).given }
    ensures reads { Reads child host (S.view spawner.old) (S.view spawner.new) result }
    ensures given { (S.view spawner.new).given ≡ (S.view spawner.old).given }
{
    let mut output = Output::new(alloc);
    'lines: loop {
        let line = match spawner.line(child) {
            Ok(line) => line,
            Err(fault) => return Err(fault_of(host, fault)),
        };
        match line {
            Some(line) => take_line(&mut output, host, line.as_slice())?,
            None => {
                finish(spawner, child, host)?;
                if output.over {
                    return Ok(output.words);
                }
                return Err(ChildrenFault::Line(host));
            }
        }
    }
}
