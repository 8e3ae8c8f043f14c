//! Records that come.

ghost use Rattle.vd_channel_crypto.specs.Keys.{direction};
ghost use Rattle.vd_channel_link.specs.Taking.{Refuses, TakesCarried, TakesSealed};

use crate::fault::SealFault;
use crate::filling::fill;
use crate::piece::Piece;
use vd_channel_crypto::{Keys, open};
use vd_outside::Link;

/// Takes a record whose code is that of this number.
fn take_covered<L: Link>(link: &mut L, keys: &Keys, number: u64) -> Result<Piece, SealFault>
    ensures takes { TakesCarried (direction keys.now) number (L.view link.old) (L.view link.new) result }
    ensures refused { Refuses (direction keys.now) number (L.view link.old) (L.view link.new) result }
{
    let mut head = [0u8; 2];
    fill(link, &mut head)?;
    let [tag, count] = head;
    if tag != 0x58 {
        return Err(SealFault::Head);
    }
    if count > 128 {
        return Err(SealFault::Head);
    }
    let mut room = [0u8; 128];
    let covered = &mut room[..count as usize];
    fill(link, covered)?;
    let mut code = [0u8; 32];
    fill(link, &mut code)?;
    match open(keys, number, covered, &code) {
        Some(bytes) => Ok(Piece::front(bytes, usize::from(count))),
        None => Err(SealFault::Code),
    }
}

/// Takes the record with this number of the direction with these keys, and gives its bytes.
///
/// Refuses bytes that are no record, and a record whose code these keys do not make for this number and these bytes. Tells where the
/// link failed or ended before a whole record had come. Takes no memory.
#[tactic(auto, using(crate::proofs::Carried::brings))]
pub fn take_record<L: Link>(link: &mut L, keys: &Keys, number: u64) -> Result<Piece, SealFault>
    ensures takes { TakesSealed (direction keys.now) number (L.view link.old) (L.view link.new) result }
    ensures refused { Refuses (direction keys.now) number (L.view link.old) (L.view link.new) result }
{
    take_covered(link, keys, number)
}
