ghost use Rattle.std.specs.Prelude.{◌≡◌, []};
ghost use Rattle.vd_duet.specs.Calls.{in_clear};
ghost use Rattle.vd_backend_laws.specs.Parts.{word_in};

use std::alloc::Global;
use std::marker::Model;
use vd_base::Items;
use vd_duet::{Part, Parts};

/// What a slot has: a register at each host of its protocol, and how many registers from there on are the slot's. These are one
/// for a word, and for an array its size. A commitment has each of its registers by itself.
#[derive(Drop)]
pub struct Placement {
    copies: Parts,
    size: u32,
}

impl Model for Placement {
    ghost use Rattle.std.specs.Coded.{codes};
    ghost use Rattle.vd_duet.specs.Calls.{in_clear as places};
    ghost use Rattle.vd_backend_laws.specs.Parts.{Parts as Slot};

    ghost Value = { Slot };

    ghost view = { λ x. record { at = places x.copies; size = x.size } };
}

impl Placement {
    /// A word.
    pub(crate) fn word(copies: Parts) -> Placement
        ensures { result ≡ word_in (in_clear copies) }
    {
        Placement { copies, size: 1 }
    }

    /// Nothing, which a slot has before its word is made.
    pub(crate) fn none(alloc: Global) -> Placement
        ensures { result ≡ record { at = []; size = 0 } }
    {
        Placement::array(Items::new(alloc), 0)
    }

    /// An array.
    pub(crate) fn array(copies: Parts, size: u32) -> Placement
        ensures { result ≡ record { at = in_clear copies; size = size } }
    {
        Placement { copies, size }
    }

    /// The register at each host.
    pub(crate) fn parts(&self) -> &Parts
        ensures { in_clear result.now ≡ self.now.at }
    {
        &self.copies
    }

    /// How many registers are the slot's.
    pub(crate) fn size(&self) -> u32
        ensures { result ≡ self.now.size }
    {
        self.size
    }
}
