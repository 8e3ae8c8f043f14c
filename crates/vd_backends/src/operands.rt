//! The operands of an operation.

ghost use Rattle.std.specs.Prelude.{◌≡◌, IfOk, length, map};
ghost use Rattle.vd_duet.specs.Calls.{all_placed};

use crate::placement::Placement;
use std::alloc::{AllocError, Global};
use vd_base::Items;
use vd_duet::{Args, Part};

/// The registers of operands.
pub(crate) fn operands(xs: &Items<Placement>, alloc: Global) -> Result<Args, AllocError>
    ensures exact { IfOk result (λ args. all_placed (λ c. c.0) args ≡ map (λ x. x.at) xs.now) }
    ensures as_many { IfOk result (λ args. length args ≡ length xs.now) }
{
    let mut args = Items::new(alloc);
    for x in xs.as_slice() {
        let copies = Items::from_slice(alloc, x.parts().as_slice())?;
        args.push(copies)?;
    }
    Ok(args)
}
