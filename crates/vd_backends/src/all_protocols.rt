ghost use Rattle.std.specs.Prelude.{◌≡◌, [], ◌∷◌};
ghost use Rattle.vd_duet.specs.Calls.{in_clear};
ghost use Rattle.vd_backends.specs.Offered.{offer_of};

use crate::operands::operands;
use crate::placement::Placement;
use crate::{acting, arrays, back_ends, loops, moves};
use std::alloc::{AllocError, Global};
use std::marker::Model;
use vd_base::{HostId, Items, Op, Proto};
use vd_duet::{Duet, Part, register_at};
use vd_execution::{Act, Action};
use vd_split::Protocols;

/// All protocols over the first hosts.
#[derive(Drop)]
pub struct AllProtocols {
    hosts: u8,
    nowhere: Placement,
}

impl Model for AllProtocols {
    ghost use Rattle.std.specs.Prelude.{◌≡◌, ℕ, []};
    ghost use Rattle.std.specs.Coded.{coded_ℕ};

    ghost Value = { ℕ };

    ghost coded = { coded_ℕ };

    ghost view = { λ b. b.hosts };

    ghost invariant = { λ b. b.nowhere ≡ record { at = []; size = 0 } };
}

impl AllProtocols {
    /// Those over so many hosts.
    pub fn new(alloc: Global, hosts: u8) -> AllProtocols
        ensures { result ≡ hosts }
    {
        AllProtocols {
            hosts,
            nowhere: Placement::none(alloc),
        }
    }
}

impl Protocols for AllProtocols {
    type Parts = Placement;

    ghost offer = { offer_of };

    fn hosts(&self) -> u8 {
        self.hosts
    }

    fn nowhere(&self) -> &Placement {
        &self.nowhere
    }

    fn register(&self, x: &Placement, at: HostId) -> u32 {
        register_at(x.parts(), at).0
    }

    fn moves_at(&self, from: Proto, onto: Proto, host: HostId) -> bool {
        acting::moves_at(from, onto, host)
    }

    fn applies_at(&self, op: Op, at: Proto, host: HostId) -> bool {
        acting::applies_at(op, at, host)
    }

    fn literal(&self, at: Proto, word: u32, to: &mut Duet) -> Result<Placement, AllocError> {
        let copies = back_ends::literal(at, word, to)?;
        Ok(Placement::word(copies))
    }

    fn turn(&self, at: Proto, turns: &[u32], to: &mut Duet) -> Result<Placement, AllocError> {
        let copies = loops::turn(at, turns, to)?;
        Ok(Placement::word(copies))
    }

    fn bring(
        &self,
        from: Proto,
        onto: Proto,
        x: &Placement,
        to: &mut Duet,
    ) -> Result<Placement, AllocError> {
        let copies = moves::bring(from, onto, x.parts(), to)?;
        Ok(Placement::word(copies))
    }

    fn apply(
        &self,
        op: Op,
        at: Proto,
        xs: &Items<Placement>,
        to: &mut Duet,
    ) -> Result<Placement, AllocError> {
        let args = operands(xs, to.alloc())?;
        let copies = back_ends::apply(op, at, &args, to)?;
        Ok(Placement::word(copies))
    }

    fn input(&self, host: HostId, to: &mut Duet) -> Result<Placement, AllocError> {
        let at = to.reserve(host, 1);
        to.add(Act::Do(host, Action::Input(at)))?;
        let copies = Items::from_slice(to.alloc(), &[(host, Part(at))])?;
        Ok(Placement::word(copies))
    }

    fn output(&self, host: HostId, x: &Placement, to: &mut Duet) -> Result<(), AllocError> {
        to.add(Act::Do(host, Action::Print(register_at(x.parts(), host))))
    }

    fn keep(&self, at: Proto, x: &Placement, to: &mut Duet) -> Result<Placement, AllocError> {
        let copies = back_ends::keep(at, x.parts(), to)?;
        Ok(Placement::word(copies))
    }

    fn renew(
        &self,
        at: Proto,
        kept: &Placement,
        x: &Placement,
        to: &mut Duet,
    ) -> Result<(), AllocError> {
        back_ends::renew(at, kept.parts(), x.parts(), to)
    }

    fn cells(&self, at: Proto, size: u32, to: &mut Duet) -> Result<Placement, AllocError> {
        let copies = arrays::cells(at, size, to)?;
        Ok(Placement::array(copies, size))
    }

    fn get(
        &self,
        at: Proto,
        x: &Placement,
        index: &[(u8, u32)],
        to: &mut Duet,
    ) -> Result<Placement, AllocError> {
        let copies = arrays::get(at, x, index, to)?;
        Ok(Placement::word(copies))
    }

    fn put(
        &self,
        at: Proto,
        kept: &Placement,
        index: &[(u8, u32)],
        x: &Placement,
        to: &mut Duet,
    ) -> Result<(), AllocError> {
        arrays::put(at, kept, index, x, to)
    }
}
