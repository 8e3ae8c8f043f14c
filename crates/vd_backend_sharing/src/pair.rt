ghost use Rattle.std.specs.Prelude.{◌≡◌, ◌<◌, ◌≤◌, ◌+◌, ◌∷◌, [], IfOk, OnOk, length, slice_index};
ghost use Rattle.vd_duet.specs.Builder.{TakesAtMost, added};
ghost use Rattle.vd_duet.specs.Calls.{Makes, appended, in_clear};
ghost use Rattle.vd_duet.specs.Laws.{AreKnown};
ghost use Rattle.vd_execution.specs.declared.instructions.Act.TheVariants as act;
ghost use Rattle.vd_backend_sharing.specs.Sharings.{sharing_of};
ghost use Rattle.vd_backend_sharing.specs.PairCalls.{AreLow, reserved_both, literal_shares, split_off, exchanged, shared_from, adopted_shares, opened_by, shown_at, shown_to_both, kept_shares, renewed_shares, applied_shares, numbered_shares};

use crate::shares::{PartRegisters, Sharing};
use std::alloc::AllocError;
use vd_base::{HostId, Items};
use vd_duet::{Duet, Part, Parts, register_at};
use vd_execution::{Act, Action, Binary, Reg};

/// Two hosts that share words.
#[derive(Clone, Copy, PartialEq, Eq)]
pub struct Pair {
    pub sharing: Sharing,
    pub first: HostId,
    pub second: HostId,
}

/// A host tells another the word of a register.
pub fn tell(
    from: HostId,
    said: Reg,
    to: HostId,
    heard: Reg,
    code: &mut Duet,
) -> Result<(), AllocError>
    ensures { OnOk result (code.new ≡ added (act.Msg from (said ∷ []) to (heard ∷ [])) code.old) }
{
    let words = Items::from_slice(code.alloc(), &[said])?;
    let registers = Items::from_slice(code.alloc(), &[heard])?;
    code.add(Act::Msg(from, words, to, registers))
}

impl Pair {
    /// The first of some fresh registers of each host.
    #[tactic(auto, using(crate::proofs::Rooms::both_few))]
    pub fn reserve(&self, first: u32, second: u32, to: &mut Duet) -> PartRegisters
        requires known { AreKnown (self.now.first ∷ self.now.second ∷ []) to.old.next }
        requires room { AreLow to.old.next }
        requires few_first { first ≤ 16 }
        requires few_second { second ≤ 16 }
        ensures exact { (result, to.new) ≡ reserved_both self.now.first first self.now.second second to.old }
        ensures low_first { result.first.0 < 4000000016 }
        ensures low_second { result.second.0 < 4000000016 }
        ensures few { TakesAtMost 32 to.old.next to.new.next }
    {
        PartRegisters {
            first: to.reserve(self.first, first),
            second: to.reserve(self.second, second),
        }
    }

    /// A number: the first host has it, and the second 0.
    pub fn literal(&self, word: u32, to: &mut Duet) -> Result<PartRegisters, AllocError>
        requires known { AreKnown (self.now.first ∷ self.now.second ∷ []) to.old.next }
        requires room { AreLow to.old.next }
        ensures exact { IfOk result (λ x. Makes (literal_shares self.now.first self.now.second word) to.old x to.new) }
        ensures few { OnOk result (TakesAtMost 32 to.old.next to.new.next) }
    {
        let at = self.reserve(1, 1, to);
        to.add(Act::Do(self.first, Action::Const(at.first, word)))?;
        to.add(Act::Do(self.second, Action::Const(at.second, 0)))?;
        Ok(at)
    }

    /// The move of a word from one of the two hosts, which has it in clear.
    pub fn share(&self, from: HostId, x: Reg, to: &mut Duet) -> Result<PartRegisters, AllocError>
        requires known { AreKnown (self.now.first ∷ self.now.second ∷ []) to.old.next }
        requires room { AreLow to.old.next }
        ensures exact { IfOk result (λ y. Makes (shared_from (sharing_of self.now.sharing) self.now.first self.now.second from x)
            to.old y to.new) }
        ensures few { OnOk result (TakesAtMost 32 to.old.next to.new.next) }
    {
        if from.0 == self.first.0 {
            return self.split_off(x, to);
        }
        let split = self.turned().split_off(x, to)?;
        Ok(PartRegisters {
            first: split.second,
            second: split.first,
        })
    }

    /// The same hosts in the other order.
    fn turned(&self) -> Pair
        ensures sharing { result.sharing ≡ self.now.sharing }
        ensures first { result.first ≡ self.now.second }
        ensures second { result.second ≡ self.now.first }
    {
        Pair {
            sharing: self.sharing,
            first: self.second,
            second: self.first,
        }
    }

    /// The first host gives an own word to the second, and keeps its word without that.
    fn split_off(&self, x: Reg, to: &mut Duet) -> Result<PartRegisters, AllocError>
        requires known { AreKnown (self.now.first ∷ self.now.second ∷ []) to.old.next }
        requires room { AreLow to.old.next }
        ensures exact { IfOk result (λ y. Makes (split_off (sharing_of self.now.sharing) self.now.first self.now.second x) to.old y
            to.new) }
        ensures few { OnOk result (TakesAtMost 32 to.old.next to.new.next) }
    {
        let at = self.reserve(2, 1, to);
        let kept = Reg(at.first.0 + 1);
        to.add(Act::Do(self.first, Action::Own(at.first)))?;
        tell(self.first, at.first, self.second, at.second, to)?;
        to.add(Act::Do(
            self.first,
            Action::Apply(self.sharing.hide(), kept, x, at.first),
        ))?;
        Ok(PartRegisters {
            first: kept,
            second: at.second,
        })
    }

    /// The move of a word that both hosts have in clear: the first keeps its copy, and the second has 0.
    pub fn adopt(&self, x: &Parts, to: &mut Duet) -> Result<PartRegisters, AllocError>
        requires known { AreKnown (self.now.first ∷ self.now.second ∷ []) to.old.next }
        requires room { AreLow to.old.next }
        ensures exact { IfOk result (λ y. Makes (adopted_shares self.now.first self.now.second (in_clear x.now)) to.old y to.new) }
        ensures few { OnOk result (TakesAtMost 32 to.old.next to.new.next) }
    {
        let first = register_at(x, self.first);
        let second = to.reserve(self.second, 1);
        to.add(Act::Do(self.second, Action::Const(second, 0)))?;
        Ok(PartRegisters { first, second })
    }

    /// The move of a word to one of the two hosts, in clear.
    pub fn show(&self, x: PartRegisters, at: HostId, to: &mut Duet) -> Result<Reg, AllocError>
        requires known { AreKnown (self.now.first ∷ self.now.second ∷ []) to.old.next }
        requires room { AreLow to.old.next }
        ensures exact { IfOk result (λ y. Makes (shown_at (sharing_of self.now.sharing) self.now.first self.now.second x at) to.old
            y to.new) }
        ensures few { OnOk result (TakesAtMost 32 to.old.next to.new.next) }
    {
        if at.0 == self.first.0 {
            self.open(x.second, x.first, to)
        } else {
            self.turned().open(x.first, x.second, to)
        }
    }

    /// The second host opens its part to the first, which joins them.
    fn open(&self, part: Reg, own: Reg, to: &mut Duet) -> Result<Reg, AllocError>
        requires known { AreKnown (self.now.first ∷ self.now.second ∷ []) to.old.next }
        requires room { AreLow to.old.next }
        ensures exact { IfOk result (λ y. Makes (opened_by (sharing_of self.now.sharing) self.now.second part self.now.first own)
            to.old y to.new) }
        ensures few { OnOk result (TakesAtMost 32 to.old.next to.new.next) }
    {
        let heard = to.reserve(self.first, 2);
        let word = Reg(heard.0 + 1);
        tell(self.second, part, self.first, heard, to)?;
        to.add(Act::Do(
            self.first,
            Action::Apply(self.sharing.join(), word, own, heard),
        ))?;
        Ok(word)
    }

    /// The move of a word to copies in clear at both hosts.
    pub fn show_all(&self, x: PartRegisters, to: &mut Duet) -> Result<PartRegisters, AllocError>
        requires known { AreKnown (self.now.first ∷ self.now.second ∷ []) to.old.next }
        requires room { AreLow to.old.next }
        ensures exact { IfOk result (λ y. Makes (shown_to_both (sharing_of self.now.sharing) self.now.first self.now.second x)
            to.old y to.new) }
        ensures few { OnOk result (TakesAtMost 32 to.old.next to.new.next) }
    {
        let at = self.reserve(2, 2, to);
        let word = PartRegisters {
            first: Reg(at.first.0 + 1),
            second: Reg(at.second.0 + 1),
        };
        tell(self.first, x.first, self.second, at.second, to)?;
        tell(self.second, x.second, self.first, at.first, to)?;
        let op = self.sharing.join();
        to.add(Act::Do(self.first, Action::Apply(op, word.first, x.first, at.first)))?;
        to.add(Act::Do(
            self.second,
            Action::Apply(op, word.second, x.second, at.second),
        ))?;
        Ok(word)
    }

    /// A copy in fresh registers.
    pub fn keep(&self, x: PartRegisters, to: &mut Duet) -> Result<PartRegisters, AllocError>
        requires known { AreKnown (self.now.first ∷ self.now.second ∷ []) to.old.next }
        requires room { AreLow to.old.next }
        ensures exact { IfOk result (λ y. Makes (kept_shares self.now.first self.now.second x) to.old y to.new) }
        ensures few { OnOk result (TakesAtMost 32 to.old.next to.new.next) }
    {
        let at = self.reserve(1, 1, to);
        self.renew(at, x, to)?;
        Ok(at)
    }

    /// Copies `x` into the registers of `kept`.
    pub fn renew(
        &self,
        kept: PartRegisters,
        x: PartRegisters,
        to: &mut Duet,
    ) -> Result<(), AllocError>
        ensures { OnOk result (to.new ≡ appended (renewed_shares self.now.first self.now.second kept x) to.old) }
    {
        to.add(Act::Do(self.first, Action::Copy(kept.first, x.first)))?;
        to.add(Act::Do(self.second, Action::Copy(kept.second, x.second)))
    }

    /// An operation that each host applies to its parts.
    pub fn apply(
        &self,
        op: Binary,
        x: PartRegisters,
        y: PartRegisters,
        to: &mut Duet,
    ) -> Result<PartRegisters, AllocError>
        requires known { AreKnown (self.now.first ∷ self.now.second ∷ []) to.old.next }
        requires room { AreLow to.old.next }
        ensures exact { IfOk result (λ r. Makes (applied_shares op self.now.first self.now.second x y) to.old r to.new) }
        ensures few { OnOk result (TakesAtMost 32 to.old.next to.new.next) }
    {
        let at = self.reserve(1, 1, to);
        to.add(Act::Do(self.first, Action::Apply(op, at.first, x.first, y.first)))?;
        to.add(Act::Do(
            self.second,
            Action::Apply(op, at.second, x.second, y.second),
        ))?;
        Ok(at)
    }

    /// An operation that each host applies to its part and a number.
    pub fn apply_number(
        &self,
        op: Binary,
        number: u32,
        x: PartRegisters,
        to: &mut Duet,
    ) -> Result<PartRegisters, AllocError>
        requires known { AreKnown (self.now.first ∷ self.now.second ∷ []) to.old.next }
        requires room { AreLow to.old.next }
        ensures exact { IfOk result (λ r. Makes (numbered_shares op number self.now.first self.now.second x) to.old r to.new) }
        ensures few { OnOk result (TakesAtMost 32 to.old.next to.new.next) }
    {
        let at = self.reserve(2, 2, to);
        let word = PartRegisters {
            first: Reg(at.first.0 + 1),
            second: Reg(at.second.0 + 1),
        };
        to.add(Act::Do(self.first, Action::Const(at.first, number)))?;
        to.add(Act::Do(self.first, Action::Apply(op, word.first, x.first, at.first)))?;
        to.add(Act::Do(self.second, Action::Const(at.second, number)))?;
        to.add(Act::Do(
            self.second,
            Action::Apply(op, word.second, x.second, at.second),
        ))?;
        Ok(word)
    }
}
