//! Room for the choices of a list.

ghost use Rattle.std.specs.Prelude.{◌≡◌, IfOk, length};

use std::alloc::{AllocError, Global};
use vd_base::Items;

/// Room for so many choices.
pub fn no_choices(alloc: Global, slots: usize) -> Result<Items<u32>, AllocError>
    ensures { IfOk result (λ room. length room ≡ slots) }
{
    let mut room = Items::new(alloc);
    for _ in 0..slots {
        room.push(0)?;
    }
    Ok(room)
}
