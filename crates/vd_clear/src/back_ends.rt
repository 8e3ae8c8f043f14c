ghost use Rattle.std.specs.Prelude.{◌≡◌, IfOk, OnOk};
ghost use Rattle.vd_base.specs.declared.protocols.Proto.TheVariants as proto;
ghost use Rattle.vd_base.specs.Holders.{holders};
ghost use Rattle.vd_duet.specs.Builder.{HasRoom, TakesFew};
ghost use Rattle.vd_duet.specs.Calls.{Makes, appended, in_clear, hosts_of};
ghost use Rattle.vd_duet.specs.Laws.{AreKnown};
ghost use Rattle.vd_clear.specs.Copies.{clear_calls, renewed, spread_to};

use crate::apply::Apply;
use crate::each::each_host;
use crate::show::show;
use crate::steps::{Adopt, Keep, Literal, Share, Show};
use std::alloc::{AllocError, Global};
use vd_base::{HostId, HostSet, Items, Op, Proto};
use vd_duet::{Args, Backend, Duet, Part, Parts, register_at};
use vd_execution::{Act, Action, Reg};

/// One host that holds words in clear.
#[derive(Clone, Copy, PartialEq, Eq)]
pub struct LocalHost(pub HostId);

/// Hosts that each hold a copy of words in clear.
#[derive(Clone, Copy, PartialEq, Eq)]
pub struct Replica(pub HostSet);

/// Writes `x` over the copies of `kept`.
fn renew(kept: &Parts, x: &Parts, to: &mut Duet) -> Result<(), AllocError>
    ensures { OnOk result (to.new ≡ appended (renewed (in_clear kept.now) (in_clear x.now)) to.old) }
{
    for part in kept.as_slice() {
        let from = register_at(x, part.0);
        to.add(Act::Do(part.0, Action::Copy(part.1.0, from)))?;
    }
    Ok(())
}

impl Backend for LocalHost {
    ghost calls = { λ b. clear_calls (proto.Local b.0) };

    fn proto(&self) -> Proto {
        Proto::Local(self.0)
    }

    fn serves(&self, op: Op) -> bool {
        true
    }

    fn literal(&self, word: u32, to: &mut Duet) -> Result<Parts, AllocError> {
        each_host(&[self.0], &Literal(word), to)
    }

    fn share(&self, from: HostId, x: Reg, to: &mut Duet) -> Result<Parts, AllocError> {
        each_host(&[self.0], &Share(from, x), to)
    }

    fn adopt(&self, x: &Parts, to: &mut Duet) -> Result<Parts, AllocError> {
        each_host(&[self.0], &Adopt(x), to)
    }

    fn show(&self, x: &Parts, at: HostId, to: &mut Duet) -> Result<Part, AllocError> {
        Ok(Part(show(x, at, to)?))
    }

    fn show_all(&self, x: &Parts, to: &mut Duet) -> Result<Parts, AllocError> {
        Ok(Items::from_slice(to.alloc(), x.as_slice())?)
    }

    fn keep(&self, x: &Parts, to: &mut Duet) -> Result<Parts, AllocError> {
        each_host(&[self.0], &Keep(x), to)
    }

    fn renew(&self, kept: &Parts, x: &Parts, to: &mut Duet) -> Result<(), AllocError> {
        renew(kept, x, to)
    }

    fn apply(&self, op: Op, args: &Args, to: &mut Duet) -> Result<Parts, AllocError> {
        each_host(&[self.0], &Apply(op, args), to)
    }
}

impl Backend for Replica {
    ghost calls = { λ b. clear_calls (proto.Rep b.0) };

    fn proto(&self) -> Proto {
        Proto::Rep(self.0)
    }

    fn serves(&self, op: Op) -> bool {
        true
    }

    fn literal(&self, word: u32, to: &mut Duet) -> Result<Parts, AllocError> {
        let hosts = self.0.members(to.alloc())?;
        each_host(hosts.as_slice(), &Literal(word), to)
    }

    fn share(&self, from: HostId, x: Reg, to: &mut Duet) -> Result<Parts, AllocError> {
        let hosts = self.0.members(to.alloc())?;
        each_host(hosts.as_slice(), &Share(from, x), to)
    }

    fn adopt(&self, x: &Parts, to: &mut Duet) -> Result<Parts, AllocError> {
        let hosts = self.0.members(to.alloc())?;
        each_host(hosts.as_slice(), &Adopt(x), to)
    }

    fn show(&self, x: &Parts, at: HostId, to: &mut Duet) -> Result<Part, AllocError> {
        Ok(Part(show(x, at, to)?))
    }

    fn show_all(&self, x: &Parts, to: &mut Duet) -> Result<Parts, AllocError> {
        Ok(Items::from_slice(to.alloc(), x.as_slice())?)
    }

    fn keep(&self, x: &Parts, to: &mut Duet) -> Result<Parts, AllocError> {
        let hosts = self.0.members(to.alloc())?;
        each_host(hosts.as_slice(), &Keep(x), to)
    }

    fn renew(&self, kept: &Parts, x: &Parts, to: &mut Duet) -> Result<(), AllocError> {
        renew(kept, x, to)
    }

    fn apply(&self, op: Op, args: &Args, to: &mut Duet) -> Result<Parts, AllocError> {
        let hosts = self.0.members(to.alloc())?;
        each_host(hosts.as_slice(), &Apply(op, args), to)
    }
}

/// The move of a word from copies at one set of hosts to copies at another. `x` has a part for exactly each host of `from`.
#[tactic(auto, using(crate::proofs::Members::few_parts))]
pub fn spread(x: &Parts, from: HostSet, to: HostSet, code: &mut Duet) -> Result<Parts, AllocError>
    requires known { AreKnown (holders (proto.Rep to)) code.old.next }
    requires room { HasRoom 0 code.old.next }
    requires placed { hosts_of (in_clear x.now) ≡ holders (proto.Rep from) }
    ensures exact { IfOk result (λ y. Makes (spread_to to (in_clear x.now)) code.old (in_clear y) code.new) }
    ensures hosts { IfOk result (λ y. hosts_of (in_clear y) ≡ holders (proto.Rep to)) }
    ensures few { OnOk result (TakesFew code.old.next code.new.next) }
{
    let hosts = to.members(code.alloc())?;
    each_host(hosts.as_slice(), &Show(x), code)
}
