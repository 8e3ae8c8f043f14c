ghost use Rattle.std.specs.Prelude.{◌≡◌, ◌<◌, ◌∷◌, [], IfOk, OnOk};
ghost use Rattle.vd_duet.specs.Builder.{TakesAtMost};
ghost use Rattle.vd_duet.specs.Calls.{Makes, appended};
ghost use Rattle.vd_duet.specs.Laws.{AreKnown};
ghost use Rattle.vd_execution.specs.Gadgets.{Masked, masking};
ghost use Rattle.vd_backend_sharing.specs.Sharings.{sharing_of};
ghost use Rattle.vd_backend_sharing.specs.PairCalls.{AreLow, masking_from, unmasked, completed, product_shares, with_acts, masked_told};

use crate::pair::Pair;
use crate::shares::{PartRegisters, Sharing};
use std::alloc::AllocError;
use vd_base::{HostId, Items};
use vd_duet::Duet;
use vd_execution::{Act, Action, Reg};

impl Pair {
    /// The product of two words, by one dealt item: of sums by a multiplication triple, and else, bit by bit, by a bit triple.
    pub fn product(
        &self,
        x: PartRegisters,
        y: PartRegisters,
        to: &mut Duet,
    ) -> Result<PartRegisters, AllocError>
        requires known { AreKnown (self.now.first ∷ self.now.second ∷ []) to.old.next }
        requires room { AreLow to.old.next }
        ensures exact { IfOk result (λ r. Makes (product_shares (sharing_of self.now.sharing) self.now.first self.now.second x y)
            to.old r to.new) }
        ensures few { OnOk result (TakesAtMost 32 to.old.next to.new.next) }
    {
        let at = self.reserve(15, 13, to);
        self.mask(x, y, at, to)?;
        unmask(self.sharing, self.first, at.first.0, to)?;
        complete(self.sharing, self.first, at.first.0, to)?;
        unmask(self.sharing, self.second, at.second.0, to)?;
        Ok(PartRegisters {
            first: Reg(at.first.0 + 14),
            second: Reg(at.second.0 + 12),
        })
    }

    /// Both hosts take an item, mask their operands by it and tell them to each other.
    fn mask(
        &self,
        x: PartRegisters,
        y: PartRegisters,
        at: PartRegisters,
        to: &mut Duet,
    ) -> Result<(), AllocError>
        requires low_first { at.first.0 < 4000000016 }
        requires low_second { at.second.0 < 4000000016 }
        ensures { OnOk result (to.new ≡ appended (Masked (sharing_of self.now.sharing)
            (masking_from self.now.first x.first y.first at.first.0)
            (masking_from self.now.second x.second y.second at.second.0) ∷ []) to.old) }
    {
        hide(
            self.sharing,
            self.first,
            self.second,
            x.first,
            y.first,
            at.first.0,
            to,
        )?;
        hide(
            self.sharing,
            self.second,
            self.first,
            x.second,
            y.second,
            at.second.0,
            to,
        )?;
        tell_masked(self.first, at.first.0, self.second, at.second.0, to)?;
        tell_masked(self.second, at.second.0, self.first, at.first.0, to)?;
        Ok(())
    }
}

/// A host takes an item and masks two operands by it.
fn hide(
    sharing: Sharing,
    host: HostId,
    peer: HostId,
    x: Reg,
    y: Reg,
    at: u32,
    to: &mut Duet,
) -> Result<(), AllocError>
    requires { at < 4000000016 }
    ensures { OnOk result (to.new ≡ with_acts (masking (sharing_of sharing) (masking_from host x y at) peer) to.old) }
{
    let (a, b, c) = (Reg(at), Reg(at + 1), Reg(at + 2));
    let item = match sharing {
        Sharing::Sums => Action::Triple(peer, a, b, c),
        Sharing::Xors => Action::Bits(peer, a, b, c),
    };
    to.add(Act::Do(host, item))?;
    to.add(Act::Do(host, Action::Apply(sharing.hide(), Reg(at + 3), x, a)))?;
    to.add(Act::Do(host, Action::Apply(sharing.hide(), Reg(at + 4), y, b)))
}

/// A host tells another its masked operands.
fn tell_masked(
    from: HostId,
    said: u32,
    host: HostId,
    heard: u32,
    to: &mut Duet,
) -> Result<(), AllocError>
    requires low_said { said < 4000000016 }
    requires low_heard { heard < 4000000016 }
    ensures { OnOk result (to.new ≡ with_acts (masked_told from said host heard) to.old) }
{
    let words = Items::from_slice(to.alloc(), &[Reg(said + 3), Reg(said + 4)])?;
    let registers = Items::from_slice(to.alloc(), &[Reg(heard + 5), Reg(heard + 6)])?;
    to.add(Act::Msg(from, words, host, registers))
}

/// From the opened words d and e, a host's part of the product without d * e: d * b + c + e * a.
fn unmask(sharing: Sharing, host: HostId, at: u32, to: &mut Duet) -> Result<(), AllocError>
    requires { at < 4000000016 }
    ensures { OnOk result (to.new ≡ appended (unmasked (sharing_of sharing) host at) to.old) }
{
    let (join, multiply) = (sharing.join(), sharing.multiply());
    let (d, e) = (Reg(at + 7), Reg(at + 8));
    to.add(Act::Do(host, Action::Apply(join, d, Reg(at + 3), Reg(at + 5))))?;
    to.add(Act::Do(host, Action::Apply(join, e, Reg(at + 4), Reg(at + 6))))?;
    to.add(Act::Do(host, Action::Apply(multiply, Reg(at + 9), d, Reg(at + 1))))?;
    to.add(Act::Do(
        host,
        Action::Apply(join, Reg(at + 10), Reg(at + 9), Reg(at + 2)),
    ))?;
    to.add(Act::Do(host, Action::Apply(multiply, Reg(at + 11), e, Reg(at))))?;
    to.add(Act::Do(
        host,
        Action::Apply(join, Reg(at + 12), Reg(at + 10), Reg(at + 11)),
    ))
}

/// Joins d * e to the part of one host.
fn complete(sharing: Sharing, host: HostId, at: u32, to: &mut Duet) -> Result<(), AllocError>
    requires { at < 4000000016 }
    ensures { OnOk result (to.new ≡ appended (completed (sharing_of sharing) host at) to.old) }
{
    let (join, multiply) = (sharing.join(), sharing.multiply());
    to.add(Act::Do(
        host,
        Action::Apply(multiply, Reg(at + 13), Reg(at + 7), Reg(at + 8)),
    ))?;
    to.add(Act::Do(
        host,
        Action::Apply(join, Reg(at + 14), Reg(at + 12), Reg(at + 13)),
    ))
}
