ghost use Rattle.vd_outside.specs.Sink.{WritesAll};

use crate::Sink;
use vd_base::Failed;

/// Writes all bytes.
pub fn write_all<O: Sink>(out: &mut O, bytes: &[u8]) -> Result<(), Failed>
    ensures { WritesAll bytes.now (O.view out.old) (O.view out.new) result }
{
    let mut done: usize = 0;
    while done < bytes.len() {
        done += out.write(&bytes[done..])? as usize;
    }
    Ok(())
}
