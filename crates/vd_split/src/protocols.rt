ghost use Rattle.std.specs.Prelude.{◌≡◌, ◌+◌, ◌<◌, IsTrue, IfOk, OnOk, length};
ghost use Rattle.vd_base.specs.Arity.{arity};
ghost use Rattle.vd_base.specs.declared.protocols.Proto.TheVariants.{Local as AtHost};
ghost use Rattle.vd_base.specs.Holders.{holders};
ghost use Rattle.vd_duet.specs.Builder.{HasRoom, TakesAtMost, TakesFew, most_taken};
ghost use Rattle.vd_duet.specs.Calls.{appended};
ghost use Rattle.vd_split.specs.Offer.{Offer, CanCall};
ghost use Rattle.vd_split.specs.Lines.{Makes};

use std::alloc::AllocError;
use vd_base::{HostId, Items, Op, Proto};
use vd_duet::Duet;

/// All protocols together, as the splitter asks for them. Each call that is lent a `Duet` gives what the call of `offer`
/// gives, and puts exactly its gadgets at the end. On `Err`, which is out of memory, the `Duet` holds some of the acts and
/// is to be given up.
pub trait Protocols {
    /// What a slot has: the registers of its parts.
    type Parts: Drop;

    ghost offer: { Self → Offer Self.Parts };

    /// The number of hosts.
    fn hosts(&self) -> u8
        ensures { result ≡ (offer self.now).calls.hosts };

    /// The parts of a slot that has none.
    fn nowhere(&self) -> &Self::Parts
        ensures { result.now ≡ (offer self.now).calls.nowhere };

    /// The register of a word in clear at a host.
    fn register(&self, x: &Self::Parts, at: HostId) -> u32
        ensures { result ≡ (offer self.now).calls.register x.now at.0 };

    /// Whether a host has an instruction in a move.
    fn moves_at(&self, from: Proto, onto: Proto, host: HostId) -> bool
        ensures { result ≡ (offer self.now).calls.moves_at from onto host.0 };

    /// Whether a host has an instruction in an operation.
    fn applies_at(&self, op: Op, at: Proto, host: HostId) -> bool
        ensures { result ≡ (offer self.now).calls.applies_at op at host.0 };

    /// A number.
    fn literal(&self, at: Proto, word: u32, to: &mut Duet) -> Result<Self::Parts, AllocError>
        requires at { IsTrue ((offer self.now).has at) }
        requires ready { CanCall (offer self.now).calls.hosts to.old.next }
        ensures exact { IfOk result (λ x. Makes ((offer self.now).calls.literal at word) to.old x to.new) }
        ensures placed { IfOk result (λ x. (offer self.now).hosts_at at x ≡ holders at) }
        ensures few { OnOk result (TakesFew to.old.next to.new.next) };

    /// The number of the turn, from the registers of the innermost loop, by host.
    fn turn(&self, at: Proto, turns: &[u32], to: &mut Duet) -> Result<Self::Parts, AllocError>
        requires at { IsTrue ((offer self.now).has at) }
        requires ready { CanCall (offer self.now).calls.hosts to.old.next }
        ensures exact { IfOk result (λ x. Makes ((offer self.now).calls.turn at turns.now) to.old x to.new) }
        ensures placed { IfOk result (λ x. (offer self.now).hosts_at at x ≡ holders at) }
        ensures few { OnOk result (TakesFew to.old.next to.new.next) };

    /// The move of a word from one protocol to another.
    fn bring(
        &self,
        from: Proto,
        onto: Proto,
        x: &Self::Parts,
        to: &mut Duet,
    ) -> Result<Self::Parts, AllocError>
        requires from { IsTrue ((offer self.now).has from) }
        requires onto { IsTrue ((offer self.now).has onto) }
        requires placed { (offer self.now).hosts_at from x.now ≡ holders from }
        requires ready { CanCall (offer self.now).calls.hosts to.old.next }
        ensures exact { IfOk result (λ y. Makes ((offer self.now).calls.move from onto x.now) to.old y to.new) }
        ensures placed { IfOk result (λ y. (offer self.now).hosts_at onto y ≡ holders onto) }
        ensures few { OnOk result (TakesFew to.old.next to.new.next) };

    /// An operation on as many operands as it takes.
    fn apply(
        &self,
        op: Op,
        at: Proto,
        xs: &Items<Self::Parts>,
        to: &mut Duet,
    ) -> Result<Self::Parts, AllocError>
        requires at { IsTrue ((offer self.now).has at) }
        requires serves { IsTrue ((offer self.now).serves op at) }
        requires arity { length xs.now ≡ arity op }
        requires ready { CanCall (offer self.now).calls.hosts to.old.next }
        ensures exact { IfOk result (λ x. Makes ((offer self.now).calls.apply op at xs.now) to.old x to.new) }
        ensures placed { IfOk result (λ x. (offer self.now).hosts_at at x ≡ holders at) }
        ensures few { OnOk result (TakesFew to.old.next to.new.next) };

    /// The next input of a host.
    fn input(&self, host: HostId, to: &mut Duet) -> Result<Self::Parts, AllocError>
        requires host { host.0 < (offer self.now).calls.hosts }
        requires ready { CanCall (offer self.now).calls.hosts to.old.next }
        ensures exact { IfOk result (λ x. Makes ((offer self.now).calls.input host) to.old x to.new) }
        ensures placed { IfOk result (λ x. (offer self.now).hosts_at (AtHost host) x ≡ holders (AtHost host)) }
        ensures few { OnOk result (TakesFew to.old.next to.new.next) };

    /// A word in clear at a host is printed.
    fn output(&self, host: HostId, x: &Self::Parts, to: &mut Duet) -> Result<(), AllocError>
        requires placed { (offer self.now).hosts_at (AtHost host) x.now ≡ holders (AtHost host) }
        ensures { OnOk result (to.new ≡ appended ((offer self.now).calls.output host x.now) to.old) };

    /// A copy in fresh registers.
    fn keep(&self, at: Proto, x: &Self::Parts, to: &mut Duet) -> Result<Self::Parts, AllocError>
        requires at { IsTrue ((offer self.now).has at) }
        requires placed { (offer self.now).hosts_at at x.now ≡ holders at }
        requires ready { CanCall (offer self.now).calls.hosts to.old.next }
        ensures exact { IfOk result (λ y. Makes ((offer self.now).calls.keep at x.now) to.old y to.new) }
        ensures placed { IfOk result (λ y. (offer self.now).hosts_at at y ≡ holders at) }
        ensures few { OnOk result (TakesFew to.old.next to.new.next) };

    /// A copy of `x` into the registers of a variable.
    fn renew(
        &self,
        at: Proto,
        kept: &Self::Parts,
        x: &Self::Parts,
        to: &mut Duet,
    ) -> Result<(), AllocError>
        requires at { IsTrue ((offer self.now).has at) }
        requires kept { (offer self.now).hosts_at at kept.now ≡ holders at }
        requires placed { (offer self.now).hosts_at at x.now ≡ holders at }
        ensures { OnOk result (to.new ≡ appended ((offer self.now).calls.renew at kept.now x.now) to.old) };

    /// An array of so many zeros.
    fn cells(&self, at: Proto, size: u32, to: &mut Duet) -> Result<Self::Parts, AllocError>
        requires at { IsTrue ((offer self.now).has at) }
        requires hosts { length to.old.next ≡ (offer self.now).calls.hosts }
        requires room { HasRoom size to.old.next }
        ensures exact { IfOk result (λ x. Makes ((offer self.now).calls.cells at size) to.old x to.new) }
        ensures placed { IfOk result (λ x. (offer self.now).hosts_at at x ≡ holders at) }
        ensures few { OnOk result (TakesAtMost (most_taken + size) to.old.next to.new.next) };

    /// A word of an array. The index stands in clear in these registers of hosts.
    fn get(
        &self,
        at: Proto,
        x: &Self::Parts,
        index: &[(u8, u32)],
        to: &mut Duet,
    ) -> Result<Self::Parts, AllocError>
        requires at { IsTrue ((offer self.now).has at) }
        requires placed { (offer self.now).hosts_at at x.now ≡ holders at }
        requires ready { CanCall (offer self.now).calls.hosts to.old.next }
        ensures exact { IfOk result (λ y. Makes ((offer self.now).calls.get at x.now index.now) to.old y to.new) }
        ensures placed { IfOk result (λ y. (offer self.now).hosts_at at y ≡ holders at) }
        ensures few { OnOk result (TakesFew to.old.next to.new.next) };

    /// A word of an array is written.
    fn put(
        &self,
        at: Proto,
        kept: &Self::Parts,
        index: &[(u8, u32)],
        x: &Self::Parts,
        to: &mut Duet,
    ) -> Result<(), AllocError>
        requires at { IsTrue ((offer self.now).has at) }
        requires kept { (offer self.now).hosts_at at kept.now ≡ holders at }
        requires placed { (offer self.now).hosts_at at x.now ≡ holders at }
        ensures { OnOk result (to.new ≡ appended ((offer self.now).calls.put at kept.now index.now x.now) to.old) };
}
