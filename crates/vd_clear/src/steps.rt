ghost use Rattle.std.specs.Prelude.{◌≡◌, ◌<◌, ◌≤◌, ◌+◌, ◌^◌, IfOk, OnOk, length, slice_index};
ghost use Rattle.vd_duet.specs.Builder.{TakesAtMost};
ghost use Rattle.vd_duet.specs.Calls.{Makes, in_clear};
ghost use Rattle.vd_clear.specs.Copies.{literal_at, passed, adopted, kept_by, shown};

use crate::each::Step;
use crate::show::show;
use std::alloc::AllocError;
use vd_base::{HostId, Items};
use vd_duet::{Duet, Part, Parts, register_at};
use vd_execution::{Act, Action, Reg};

/// A number.
#[derive(Drop)]
pub(crate) struct Literal(pub(crate) u32);

impl Step for Literal {
    ghost made = { λ s. literal_at s.0 };

    ghost is_small = { λ s. Unit {0} };

    fn at(&self, host: HostId, to: &mut Duet) -> Result<Reg, AllocError> {
        let at = to.reserve(host, 1);
        to.add(Act::Do(host, Action::Const(at, self.0)))?;
        Ok(at)
    }
}

/// The word of a register of one host, which tells it to all others.
#[derive(Drop)]
pub(crate) struct Share(pub(crate) HostId, pub(crate) Reg);

impl Step for Share {
    ghost made = { λ s. passed s.0 s.1 };

    ghost is_small = { λ s. Unit {0} };

    fn at(&self, host: HostId, to: &mut Duet) -> Result<Reg, AllocError> {
        if self.0.0 == host.0 {
            return Ok(self.1);
        }
        let heard = to.reserve(host, 1);
        let said = Items::from_slice(to.alloc(), &[self.1])?;
        let hears = Items::from_slice(to.alloc(), &[heard])?;
        to.add(Act::Msg(self.0, said, host, hears))?;
        Ok(heard)
    }
}

/// The copy that a host has already.
#[derive(Drop)]
pub(crate) struct Adopt<'a>(pub(crate) &'a Parts);

impl<'a> Step for Adopt<'a> {
    ghost made = { λ s. adopted (in_clear s.0.now) };

    ghost is_small = { λ s. Unit {0} };

    fn at(&self, host: HostId, to: &mut Duet) -> Result<Reg, AllocError> {
        Ok(register_at(self.0, host))
    }
}

/// A copy in a fresh register.
#[derive(Drop)]
pub(crate) struct Keep<'a>(pub(crate) &'a Parts);

impl<'a> Step for Keep<'a> {
    ghost made = { λ s. kept_by (in_clear s.0.now) };

    ghost is_small = { λ s. Unit {0} };

    fn at(&self, host: HostId, to: &mut Duet) -> Result<Reg, AllocError> {
        let at = to.reserve(host, 1);
        to.add(Act::Do(host, Action::Copy(at, register_at(self.0, host))))?;
        Ok(at)
    }
}

/// The copy that a host has already, or that all others tell it.
#[derive(Drop)]
pub(crate) struct Show<'a>(pub(crate) &'a Parts);

impl<'a> Step for Show<'a> {
    ghost made = { λ s. shown (in_clear s.0.now) };

    ghost is_small = { λ s. length s.0.now ≤ 8 };

    fn at(&self, host: HostId, to: &mut Duet) -> Result<Reg, AllocError> {
        show(self.0, host, to)
    }
}
