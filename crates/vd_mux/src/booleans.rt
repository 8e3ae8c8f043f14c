//! Whether the guards of a program are 0 or 1 whatever it runs on.

ghost use Rattle.std.specs.Prelude.{◌≡◌};
ghost use Rattle.std.specs.List.{list_all};
ghost use Rattle.vd_mux.specs.BooleanGuards.{op_is_truth as op_gives_truth, right_is_truth as right_gives_truth};
ghost use Rattle.vd_mux.specs.Truths.{truth_of, kept, all_kept};

use vd_base::{Kind, Op, SlotId};
use vd_core::{Right, Slot, Stmt};
use vd_rewrite::kind_of;

/// The slots of a program, with their kinds.
#[derive(Drop)]
pub(crate) struct Truths<'a> {
    pub(crate) slots: &'a [Slot],
}

impl<'a> Truths<'a> {
    /// Whether a slot has the kind Bool.
    fn is_truth(&self, slot: SlotId) -> bool
        ensures { result ≡ truth_of self.now slot }
    {
        match kind_of(self.slots, slot) {
            Kind::Word => false,
            Kind::Bool => true,
        }
    }

    fn are_truths(&self, slots: &[SlotId]) -> bool
        ensures { result ≡ list_all (truth_of self.now) slots.now }
    {
        slots.iter().all(|slot| self.is_truth(*slot))
    }

    fn op_is_truth(&self, op: Op, slots: &[SlotId]) -> bool
        ensures { result ≡ op_gives_truth (truth_of self.now) op slots.now }
    {
        match op {
            Op::And | Op::Or | Op::Xor | Op::Flip => self.are_truths(slots),
            Op::Eq | Op::Ne | Op::Lt | Op::Le => true,
            Op::Mux => match slots.split_first() {
                None => true,
                Some((_, rest)) => self.are_truths(rest),
            },
            Op::Add
            | Op::Sub
            | Op::Mul
            | Op::Scale(_)
            | Op::Div
            | Op::Rem
            | Op::Not
            | Op::Shl(_)
            | Op::Shr(_)
            | Op::Min
            | Op::Max => false,
        }
    }

    fn right_is_truth(&self, right: &Right) -> bool
        ensures { result ≡ right_gives_truth (truth_of self.now) right.now }
    {
        match right {
            Right::Lit(number) => *number <= 1,
            Right::Turn => false,
            Right::Copy(slot) => self.is_truth(*slot),
            Right::Apply(op, slots) => self.op_is_truth(*op, slots.as_slice()),
            Right::Input(_) => false,
            Right::Declassify(slot, _) => self.is_truth(*slot),
            Right::Endorse(slot, _) => self.is_truth(*slot),
            Right::Load(variable) => self.is_truth(*variable),
            Right::Get(array, _) => self.is_truth(*array),
        }
    }

    /// Whether what goes into slots of the kind Bool is 0 or 1, and guards have that kind, in a statement and its blocks.
    #[cycle(kept)]
    fn is_kept(&self, stmt: &Stmt) -> bool
        ensures { result ≡ kept self.now stmt.now }
    {
        match stmt {
            Stmt::Let(slot, right) => !self.is_truth(*slot) || self.right_is_truth(right),
            Stmt::NewVar(variable, value) => !self.is_truth(*variable) || self.is_truth(*value),
            Stmt::NewArray(_, _) => true,
            Stmt::Store(variable, value) => !self.is_truth(*variable) || self.is_truth(*value),
            Stmt::Put(array, _, value) => !self.is_truth(*array) || self.is_truth(*value),
            Stmt::Output(_, _, _) => true,
            Stmt::If(guard, then_block, else_block, _) => {
                self.is_truth(*guard)
                    && (self.are_kept(then_block.as_slice())
                        && self.are_kept(else_block.as_slice()))
            }
            Stmt::For(_, body) => self.are_kept(body.as_slice()),
        }
    }

    #[cycle(kept)]
    pub(crate) fn are_kept(&self, body: &[Stmt]) -> bool
        ensures { result ≡ all_kept self.now body.now }
    {
        for stmt in body {
            if !self.is_kept(stmt) {
                return false;
            }
        }
        true
    }
}
