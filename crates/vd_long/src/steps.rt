//! The statements that take the place of one division.

ghost use Rattle.std.specs.Prelude.{◌≡◌, ◌≤◌, OnOk};
ghost use Rattle.vd_rewrite.specs.Rewriting.{fresh};
ghost use Rattle.vd_rewrite.specs.Rewriting.{with_new};
ghost use Rattle.vd_long.specs.Lengthened.{kind_of_op as kind_of, quotient_template, remainder_template};
ghost use Rattle.vd_long.specs.Template.{division_start, division_turn, division_choice, remainder_start as remainder_begin, remainder_turn};
ghost use Rattle.vd_long.specs.Steps.{placed_in, step_in, steps_in, turns_in, made_in, loop_in, division_in};
ghost use Rattle.vd_rewrite.specs.Stops.{Stops};

use std::alloc::{AllocError, Global};
use vd_base::{Items, Kind, Op, SlotId};
use vd_core::{Right, Slot, Stmt};
use vd_rewrite::{Made, Stop, fresh_slot};

/// Where the statements go: the number of the first new slot, the operands' numbers, and the offset and block of new slots.
#[derive(Clone, Copy, PartialEq, Eq, Debug)]
pub(crate) struct Place {
    pub base: u16,
    pub dividend: SlotId,
    pub divisor: SlotId,
    pub offset: u32,
    pub block: u32,
}

/// A statement of a template. Numbers 0 and 1 are the operands, and the others the new slots in order.
#[derive(Clone, Copy, PartialEq, Eq)]
pub(crate) enum Step {
    Lit(u8, u32),
    Copy(u8, u8),
    Load(u8, u8),
    One(u8, Op, u8),
    Two(u8, Op, u8, u8),
    Three(u8, Op, u8, u8, u8),
    NewVar(u8, u8),
    Store(u8, u8),
}

fn kind_of_op(op: Op) -> Kind
    ensures { result ≡ kind_of op }
{
    match op {
        Op::Eq => Kind::Bool,
        Op::Ne => Kind::Bool,
        Op::Lt => Kind::Bool,
        Op::Le => Kind::Bool,
        _ => Kind::Word,
    }
}

impl Place {
    fn slot(self, number: u8) -> SlotId
        requires { self.base ≤ 512 }
        ensures { result ≡ placed_in self number }
    {
        if number == 0 {
            return self.dividend;
        }
        if number == 1 {
            return self.divisor;
        }
        SlotId(self.base + u16::from(number - 2))
    }

    fn add(self, alloc: Global, made: &mut Made, kind: Kind, stmt: Stmt) -> Result<(), Stop>
        ensures made { OnOk result (made.new ≡ with_new (fresh kind self.offset self.block) stmt made.old) }
        ensures stop { Stops result (with_new (fresh kind self.offset self.block) stmt made.old) }
    {
        let entry = fresh_slot(alloc, kind, self.offset, self.block)?;
        made.add_new(entry, stmt)
    }

    /// Appends a step.
    fn add_step(self, alloc: Global, made: &mut Made, step: &Step) -> Result<(), Stop>
        requires { self.base ≤ 512 }
        ensures made { OnOk result (made.new ≡ step_in self step.now made.old) }
        ensures stop { Stops result (step_in self step.now made.old) }
    {
        match *step {
            Step::Lit(to, word) => {
                let to = self.slot(to);
                self.add(alloc, made, Kind::Word, Stmt::Let(to, Right::Lit(word)))
            }
            Step::Copy(to, from) => {
                let to = self.slot(to);
                let from = self.slot(from);
                self.add(alloc, made, Kind::Word, Stmt::Let(to, Right::Copy(from)))
            }
            Step::Load(to, from) => {
                let to = self.slot(to);
                let from = self.slot(from);
                self.add(alloc, made, Kind::Word, Stmt::Let(to, Right::Load(from)))
            }
            Step::One(to, op, a) => {
                let to = self.slot(to);
                let slots = Items::from_slice(alloc, &[self.slot(a)])?;
                let right = Right::Apply(op, slots);
                self.add(alloc, made, kind_of_op(op), Stmt::Let(to, right))
            }
            Step::Two(to, op, a, b) => {
                let to = self.slot(to);
                let slots = Items::from_slice(alloc, &[self.slot(a), self.slot(b)])?;
                let right = Right::Apply(op, slots);
                self.add(alloc, made, kind_of_op(op), Stmt::Let(to, right))
            }
            Step::Three(to, op, a, b, c) => {
                let to = self.slot(to);
                let slots = Items::from_slice(alloc, &[self.slot(a), self.slot(b), self.slot(c)])?;
                let right = Right::Apply(op, slots);
                self.add(alloc, made, kind_of_op(op), Stmt::Let(to, right))
            }
            Step::NewVar(to, from) => {
                let to = self.slot(to);
                let from = self.slot(from);
                self.add(alloc, made, Kind::Word, Stmt::NewVar(to, from))
            }
            Step::Store(to, from) => {
                let to = self.slot(to);
                let from = self.slot(from);
                made.push(Stmt::Store(to, from))?;
                Ok(())
            }
        }
    }

    /// Appends steps.
    pub(crate) fn steps(self, alloc: Global, made: &mut Made, steps: &[Step]) -> Result<(), Stop>
        requires { self.base ≤ 512 }
        ensures made { OnOk result (made.new ≡ steps_in self steps.now made.old) }
        ensures stop { Stops result (steps_in self steps.now made.old) }
    {
        match steps.split_first() {
            None => Ok(()),
            Some((step, rest)) => {
                self.add_step(alloc, made, step)?;
                self.steps(alloc, made, rest)
            }
        }
    }

    /// Appends a loop of 32 turns of such steps.
    pub(crate) fn turns(self, alloc: Global, made: &mut Made, steps: &[Step]) -> Result<(), Stop>
        requires { self.base ≤ 512 }
        ensures made { OnOk result (made.new ≡ turns_in self steps.now made.old) }
        ensures stop { Stops result (turns_in self steps.now made.old) }
    {
        let outer = made.set_aside(alloc);
        self.steps(alloc, made, steps)?;
        let body = made.take_back(outer);
        made.push(Stmt::For(32, body))?;
        Ok(())
    }

    /// What stands before the loop of a quotient.
    fn quotient_start(self, alloc: Global, made: &mut Made) -> Result<(), Stop>
        requires { self.base ≤ 512 }
        ensures made { OnOk result (made.new ≡ made_in self division_start made.old) }
        ensures stop { Stops result (made_in self division_start made.old) }
    {
        let steps = [
            Step::Lit(2, 0),
            Step::Copy(3, 1),
            Step::NewVar(4, 0),
            Step::NewVar(5, 2),
            Step::NewVar(6, 2),
        ];
        self.steps(alloc, made, &steps)
    }

    /// The loop of a quotient.
    fn quotient_turns(self, alloc: Global, made: &mut Made) -> Result<(), Stop>
        requires { self.base ≤ 512 }
        ensures made { OnOk result (made.new ≡ loop_in self division_turn made.old) }
        ensures stop { Stops result (loop_in self division_turn made.old) }
    {
        let steps = [
            Step::Load(7, 4),
            Step::One(8, Op::Shr(31), 7),
            Step::Load(9, 6),
            Step::One(10, Op::Shl(1), 9),
            Step::Two(11, Op::Xor, 10, 8),
            Step::Two(12, Op::Le, 3, 11),
            Step::Two(13, Op::Sub, 11, 3),
            Step::Three(14, Op::Mux, 12, 13, 11),
            Step::Store(6, 14),
            Step::One(15, Op::Shl(1), 7),
            Step::Store(4, 15),
            Step::Load(16, 5),
            Step::One(17, Op::Shl(1), 16),
            Step::Two(18, Op::Xor, 17, 12),
            Step::Store(5, 18),
        ];
        self.turns(alloc, made, &steps)
    }

    /// What stands behind the loop of a quotient.
    fn quotient_behind(self, alloc: Global, made: &mut Made) -> Result<(), Stop>
        requires { self.base ≤ 512 }
        ensures made { OnOk result (made.new ≡ made_in self division_choice made.old) }
        ensures stop { Stops result (made_in self division_choice made.old) }
    {
        let steps = [Step::Two(19, Op::Eq, 3, 2), Step::Load(20, 5)];
        self.steps(alloc, made, &steps)
    }

    /// What stands before the loop of a remainder.
    fn remainder_start(self, alloc: Global, made: &mut Made) -> Result<(), Stop>
        requires { self.base ≤ 512 }
        ensures made { OnOk result (made.new ≡ made_in self remainder_begin made.old) }
        ensures stop { Stops result (made_in self remainder_begin made.old) }
    {
        let steps = [
            Step::Lit(2, 0),
            Step::Copy(3, 1),
            Step::NewVar(4, 0),
            Step::NewVar(5, 2),
        ];
        self.steps(alloc, made, &steps)
    }

    /// The loop of a remainder.
    fn remainder_turns(self, alloc: Global, made: &mut Made) -> Result<(), Stop>
        requires { self.base ≤ 512 }
        ensures made { OnOk result (made.new ≡ loop_in self remainder_turn made.old) }
        ensures stop { Stops result (loop_in self remainder_turn made.old) }
    {
        let steps = [
            Step::Load(6, 4),
            Step::One(7, Op::Shr(31), 6),
            Step::Load(8, 5),
            Step::One(9, Op::Shl(1), 8),
            Step::Two(10, Op::Xor, 9, 7),
            Step::Two(11, Op::Le, 3, 10),
            Step::Two(12, Op::Sub, 10, 3),
            Step::Three(13, Op::Mux, 11, 12, 10),
            Step::Store(5, 13),
            Step::One(14, Op::Shl(1), 6),
            Step::Store(4, 14),
        ];
        self.turns(alloc, made, &steps)
    }

    /// A quotient of words, in the place of the slot with that entry.
    pub(crate) fn quotient(self, alloc: Global, made: &mut Made, entry: Slot) -> Result<(), Stop>
        requires { self.base ≤ 512 }
        ensures made { OnOk result (made.new ≡ division_in self quotient_template entry made.old) }
        ensures stop { Stops result (division_in self quotient_template entry made.old) }
    {
        self.quotient_start(alloc, made)?;
        self.quotient_turns(alloc, made)?;
        self.quotient_behind(alloc, made)?;
        let slots = Items::from_slice(alloc, &[self.slot(19), self.slot(2), self.slot(20)])?;
        let next = made.next();
        made.add_kept(entry, Stmt::Let(next, Right::Apply(Op::Mux, slots)))
    }

    /// A remainder of words, in the place of the slot with that entry.
    pub(crate) fn remainder(self, alloc: Global, made: &mut Made, entry: Slot) -> Result<(), Stop>
        requires { self.base ≤ 512 }
        ensures made { OnOk result (made.new ≡ division_in self remainder_template entry made.old) }
        ensures stop { Stops result (division_in self remainder_template entry made.old) }
    {
        self.remainder_start(alloc, made)?;
        self.remainder_turns(alloc, made)?;
        let last = Right::Load(self.slot(5));
        let next = made.next();
        made.add_kept(entry, Stmt::Let(next, last))
    }
}
