//! Pieces that are received whole.

ghost use Rattle.std.specs.Prelude.{◌≡◌, ◌<◌, length};
ghost use Rattle.vd_channel_link.specs.Filling.{EndsEmpty, EndsShort, Fills, ReceivesAt};

use crate::fault::SealFault;
use vd_base::Failed;
use vd_outside::Link;

/// Receives bytes into a piece behind those that fill it already, and says how far it is filled then.
fn receive_at<L: Link>(link: &mut L, into: &mut [u8], filled: usize) -> Result<usize, SealFault>
    requires { filled < length into.old }
    ensures receives { ReceivesAt filled into.old into.new (L.view link.old) (L.view link.new) result }
    ensures empty { EndsEmpty (L.view link.old) (L.view link.new) result }
{
    match link.receive(&mut into[filled..]) {
        Err(Failed) => Err(SealFault::Peer),
        Ok(0) => Err(SealFault::End),
        Ok(count) => Ok(filled + count as usize),
    }
}

/// Receives bytes into the whole of a piece.
pub fn fill<L: Link>(link: &mut L, into: &mut [u8]) -> Result<(), SealFault>
    ensures fills { Fills into.new (L.view link.old) (L.view link.new) result }
    ensures same { length into.new ≡ length into.old }
    ensures cut { EndsShort into.new (L.view link.old) (L.view link.new) result }
{
    let mut filled: usize = 0;
    while filled < into.len() {
        filled = receive_at(link, into, filled)?;
    }
    Ok(())
}
