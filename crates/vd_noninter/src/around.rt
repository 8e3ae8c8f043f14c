//! The guards around a statement.

ghost use Rattle.std.specs.Prelude.{◌≡◌, IfOk};

use std::alloc::{AllocError, Global};
use vd_base::{Items, SlotId};

/// The guards around a statement, from the outermost one inwards, and whether the host may read them all.
#[derive(Drop)]
pub(crate) struct Around {
    pub guards: Items<SlotId>,
    pub told: bool,
}

impl Around {
    ghost use Rattle.vd_noninter.specs.Edges.{within};

    /// The guards around a branch of an If with this guard, which the host may read or not.
    pub fn within(&self, alloc: Global, guard: SlotId, read: bool) -> Result<Around, AllocError>
        ensures { IfOk result (λ inner. inner ≡ within self.now guard read) }
    {
        let mut guards = Items::from_slice(alloc, self.guards.as_slice())?;
        guards.push(guard)?;
        Ok(Around {
            guards,
            told: self.told && read,
        })
    }
}
