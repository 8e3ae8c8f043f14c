ghost use Rattle.vd_outside.specs.Link.{SendsAll};

use crate::Link;
use vd_base::Failed;

/// Sends all bytes.
pub fn send_all<L: Link>(link: &mut L, bytes: &[u8]) -> Result<(), Failed>
    ensures { SendsAll bytes.now (L.view link.old) (L.view link.new) result }
{
    let mut done: usize = 0;
    while done < bytes.len() {
        done += link.send(&bytes[done..])? as usize;
    }
    Ok(())
}
