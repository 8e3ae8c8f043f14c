ghost use Rattle.std.specs.Prelude.{◌≡◌, ◌≤◌, ◌∷◌, [], IfOk, OnOk, length, map};
ghost use Rattle.vd_base.specs.declared.operations.Op.TheVariants as op;
ghost use Rattle.vd_duet.specs.Builder.{TakesAtMost};
ghost use Rattle.vd_duet.specs.Calls.{Makes, all_placed, hosts_of, in_clear};
ghost use Rattle.vd_duet.specs.Laws.{AreKnown};
ghost use Rattle.vd_backend_sharing.specs.PairCalls.{AreLow, shares_of};
ghost use Rattle.vd_backend_sharing.specs.declared.shares.Sharing.TheVariants as way;
ghost use Rattle.vd_bits.specs.BitCalls.{HasCircuitRoom, gate_of, gates_in, gate_shares, gates_shares, circuit_made, computed, bit_calls};

use crate::circuits::{bit_circuit, difference_circuit, sum_circuit};
use crate::gates::Gate;
use crate::steps::{mask, part, shift_left, shift_right, turn};
use std::alloc::{AllocError, Global};
use vd_backend_sharing::{Pair, PartRegisters, Sharing};
use vd_base::{HostId, Items, Op, Proto};
use vd_duet::{Args, Backend, Duet, Part, Parts};
use vd_execution::{Binary, Reg};

/// Two hosts that share words: a word is the exclusive or of their parts.
#[derive(Clone, Copy, PartialEq, Eq)]
pub struct XorPair(pub HostId, pub HostId);

impl XorPair {
    fn pair(&self) -> Pair
        ensures { result ≡ record { sharing = way.Xors; first = self.now.0; second = self.now.1 } }
    {
        Pair {
            sharing: Sharing::Xors,
            first: self.0,
            second: self.1,
        }
    }

    /// What a gate makes of the words that are there.
    fn emit(
        &self,
        gate: Gate,
        words: &[PartRegisters],
        to: &mut Duet,
    ) -> Result<PartRegisters, AllocError>
        requires known { AreKnown (self.now.0 ∷ self.now.1 ∷ []) to.old.next }
        requires room { AreLow to.old.next }
        ensures exact { IfOk result (λ x. Makes (gate_shares self.now.0 self.now.1 (gate_of gate) words.now) to.old x to.new) }
        ensures few { OnOk result (TakesAtMost 32 to.old.next to.new.next) }
    {
        let pair = self.pair();
        match gate {
            Gate::And(x, y) => pair.product(part(words, x), part(words, y), to),
            Gate::Xor(x, y) => pair.apply(Binary::Xor, part(words, x), part(words, y), to),
            Gate::Shl(amount, x) => shift_left(&pair, amount, part(words, x), to),
            Gate::Shr(amount, x) => shift_right(&pair, amount, part(words, x), to),
            Gate::Not(x) => turn(&pair, 4294967295, part(words, x), to),
            Gate::Flip(x) => turn(&pair, 1, part(words, x), to),
            Gate::Lowest(x) => pair.apply_number(Binary::And, 1, part(words, x), to),
            Gate::Mask(x) => mask(&pair, part(words, x), to),
        }
    }

    /// What the last of some gates makes, of words that are there before the first.
    fn run(
        &self,
        gates: &[Gate],
        words: Items<PartRegisters>,
        to: &mut Duet,
    ) -> Result<PartRegisters, AllocError>
        requires known { AreKnown (self.now.0 ∷ self.now.1 ∷ []) to.old.next }
        requires room { HasCircuitRoom to.old.next }
        requires short { length gates.now ≤ 31 }
        ensures exact { IfOk result (λ x. Makes (gates_shares self.now.0 self.now.1 (gates_in gates.now) words) to.old x to.new) }
        ensures few { OnOk result (TakesAtMost 1024 to.old.next to.new.next) }
    {
        let mut made = words;
        for gate in gates {
            let word = self.emit(*gate, made.as_slice(), to)?;
            made.push(word)?;
        }
        let all = made.as_slice();
        Ok(part(all, all.len().saturating_sub(1)))
    }

    /// What the last of some gates makes, of operands at the first places.
    pub fn circuit(&self, gates: &[Gate], args: &Args, to: &mut Duet) -> Result<Parts, AllocError>
        requires known { AreKnown (self.now.0 ∷ self.now.1 ∷ []) to.old.next }
        requires room { HasCircuitRoom to.old.next }
        requires short { length gates.now ≤ 31 }
        ensures exact { IfOk result (λ x. Makes (circuit_made self.now.0 self.now.1 (gates_in gates.now) (all_placed (λ c. c.0) args.now)) to.old
            (in_clear x) to.new) }
        ensures hosts { IfOk result (λ x. hosts_of (in_clear x) ≡ self.now.0 ∷ self.now.1 ∷ []) }
        ensures few { OnOk result (TakesAtMost 1024 to.old.next to.new.next) }
    {
        let words = words_of(args, to.alloc())?;
        let made = self.run(gates, words, to)?;
        made.at(self.0, self.1, to.alloc())
    }

    /// What the last of some gates makes, of two operands.
    fn of_two(
        &self,
        gates: &[Gate],
        x: &Parts,
        y: &Parts,
        to: &mut Duet,
    ) -> Result<Parts, AllocError>
        requires known { AreKnown (self.now.0 ∷ self.now.1 ∷ []) to.old.next }
        requires room { HasCircuitRoom to.old.next }
        requires short { length gates.now ≤ 31 }
        ensures exact { IfOk result (λ z. Makes (circuit_made self.now.0 self.now.1 (gates_in gates.now)
            (in_clear x.now ∷ in_clear y.now ∷ [])) to.old (in_clear z) to.new) }
        ensures hosts { IfOk result (λ z. hosts_of (in_clear z) ≡ self.now.0 ∷ self.now.1 ∷ []) }
        ensures few { OnOk result (TakesAtMost 1024 to.old.next to.new.next) }
    {
        let words = Items::from_slice(to.alloc(), &[PartRegisters::of(x), PartRegisters::of(y)])?;
        let made = self.run(gates, words, to)?;
        made.at(self.0, self.1, to.alloc())
    }

    /// The sum, modulo 2^32, of two words.
    pub fn add(&self, x: &Parts, y: &Parts, to: &mut Duet) -> Result<Parts, AllocError>
        requires known { AreKnown (self.now.0 ∷ self.now.1 ∷ []) to.old.next }
        requires room { HasCircuitRoom to.old.next }
        ensures exact { IfOk result (λ z. Makes (computed self.now.0 self.now.1 op.Add (in_clear x.now ∷ in_clear y.now ∷ [])) to.old
            (in_clear z) to.new) }
        ensures hosts { IfOk result (λ z. hosts_of (in_clear z) ≡ self.now.0 ∷ self.now.1 ∷ []) }
        ensures few { OnOk result (TakesAtMost 1024 to.old.next to.new.next) }
    {
        let gates = sum_circuit(to.alloc())?;
        self.of_two(gates.as_slice(), x, y, to)
    }

    /// The difference, modulo 2^32, of two words.
    pub fn sub(&self, x: &Parts, y: &Parts, to: &mut Duet) -> Result<Parts, AllocError>
        requires known { AreKnown (self.now.0 ∷ self.now.1 ∷ []) to.old.next }
        requires room { HasCircuitRoom to.old.next }
        ensures exact { IfOk result (λ z. Makes (computed self.now.0 self.now.1 op.Sub (in_clear x.now ∷ in_clear y.now ∷ [])) to.old
            (in_clear z) to.new) }
        ensures hosts { IfOk result (λ z. hosts_of (in_clear z) ≡ self.now.0 ∷ self.now.1 ∷ []) }
        ensures few { OnOk result (TakesAtMost 1024 to.old.next to.new.next) }
    {
        let gates = difference_circuit(to.alloc())?;
        self.of_two(gates.as_slice(), x, y, to)
    }
}

/// The registers of the two parts of each operand.
fn words_of(args: &Args, alloc: Global) -> Result<Items<PartRegisters>, AllocError>
    ensures { IfOk result (λ words. words ≡ map shares_of (all_placed (λ c. c.0) args.now)) }
{
    let mut words = Items::new(alloc);
    for x in args.as_slice() {
        words.push(PartRegisters::of(x))?;
    }
    Ok(words)
}

impl Backend for XorPair {
    ghost calls = { λ b. bit_calls b.0 b.1 };

    fn proto(&self) -> Proto {
        Proto::Xor(self.0, self.1)
    }

    fn serves(&self, op: Op) -> bool {
        match op {
            Op::And | Op::Or | Op::Xor | Op::Not | Op::Flip | Op::Shl(_) | Op::Shr(_) => true,
            _ => false,
        }
    }

    fn literal(&self, word: u32, to: &mut Duet) -> Result<Parts, AllocError> {
        let x = self.pair().literal(word, to)?;
        x.at(self.0, self.1, to.alloc())
    }

    fn share(&self, from: HostId, x: Reg, to: &mut Duet) -> Result<Parts, AllocError> {
        let y = self.pair().share(from, x, to)?;
        y.at(self.0, self.1, to.alloc())
    }

    fn adopt(&self, x: &Parts, to: &mut Duet) -> Result<Parts, AllocError> {
        let y = self.pair().adopt(x, to)?;
        y.at(self.0, self.1, to.alloc())
    }

    fn show(&self, x: &Parts, at: HostId, to: &mut Duet) -> Result<Part, AllocError> {
        Ok(Part(self.pair().show(PartRegisters::of(x), at, to)?))
    }

    fn show_all(&self, x: &Parts, to: &mut Duet) -> Result<Parts, AllocError> {
        let y = self.pair().show_all(PartRegisters::of(x), to)?;
        y.at(self.0, self.1, to.alloc())
    }

    fn keep(&self, x: &Parts, to: &mut Duet) -> Result<Parts, AllocError> {
        let y = self.pair().keep(PartRegisters::of(x), to)?;
        y.at(self.0, self.1, to.alloc())
    }

    fn renew(&self, kept: &Parts, x: &Parts, to: &mut Duet) -> Result<(), AllocError> {
        self.pair()
            .renew(PartRegisters::of(kept), PartRegisters::of(x), to)
    }

    fn apply(&self, op: Op, args: &Args, to: &mut Duet) -> Result<Parts, AllocError> {
        let gates = bit_circuit(op, to.alloc())?;
        self.circuit(gates.as_slice(), args, to)
    }
}
