ghost use Rattle.std.specs.Prelude.{◌≡◌, IfOk};
ghost use Rattle.vd_duet.specs.Calls.{in_clear};
ghost use Rattle.vd_execution.specs.Gadgets.{hide as hide_of};
ghost use Rattle.vd_backend_sharing.specs.Sharings.{sharing_of, join as join_of, multiply as multiply_of};
ghost use Rattle.vd_backend_sharing.specs.PairCalls.{places_at, shares_of};

use std::alloc::{AllocError, Global};
use vd_base::{HostId, Items};
use vd_duet::{Part, Parts};
use vd_execution::{Binary, Reg};

/// How the parts of two hosts make a word.
#[derive(Clone, Copy, PartialEq, Eq)]
pub enum Sharing {
    /// The word is the sum of its parts.
    Sums,
    /// The word is the exclusive or of its parts.
    Xors,
}

impl Sharing {
    /// The operation that gives a word from its parts.
    pub(crate) fn join(self) -> Binary
        ensures { result ≡ join_of (sharing_of self) }
    {
        match self {
            Sharing::Sums => Binary::Add,
            Sharing::Xors => Binary::Xor,
        }
    }

    /// The operation that takes a part from a word.
    pub(crate) fn hide(self) -> Binary
        ensures { result ≡ hide_of (sharing_of self) }
    {
        match self {
            Sharing::Sums => Binary::Sub,
            Sharing::Xors => Binary::Xor,
        }
    }

    /// The operation of which dealt items are examples.
    pub(crate) fn multiply(self) -> Binary
        ensures { result ≡ multiply_of (sharing_of self) }
    {
        match self {
            Sharing::Sums => Binary::Mul,
            Sharing::Xors => Binary::And,
        }
    }
}

/// The registers of the two parts of a word.
#[derive(Clone, Copy, PartialEq, Eq)]
pub struct PartRegisters {
    pub first: Reg,
    pub second: Reg,
}

impl PartRegisters {
    /// Those of a word of two parts. A word that has fewer has register 0 for both.
    pub fn of(x: &Parts) -> PartRegisters
        ensures { result ≡ shares_of (in_clear x.now) }
    {
        match x.as_slice() {
            [first, second, ..] => PartRegisters {
                first: first.1.0,
                second: second.1.0,
            },
            _ => PartRegisters {
                first: Reg(0),
                second: Reg(0),
            },
        }
    }

    /// The word whose parts two hosts have in these registers.
    pub fn at(self, first: HostId, second: HostId, alloc: Global) -> Result<Parts, AllocError>
        ensures { IfOk result (λ y. in_clear y ≡ places_at first second self) }
    {
        Ok(Items::from_slice(
            alloc,
            &[(first, Part(self.first)), (second, Part(self.second))],
        )?)
    }
}
