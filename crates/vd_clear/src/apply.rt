ghost use Rattle.std.specs.Prelude.{◌≡◌, ◌<◌, ◌≤◌, ◌+◌, ◌^◌, IfOk, OnOk, length, slice_index};
ghost use Rattle.vd_duet.specs.Builder.{TakesAtMost};
ghost use Rattle.vd_duet.specs.Calls.{Makes, all_placed};
ghost use Rattle.vd_execution.specs.declared.instructions.Action.TheVariants as action;
ghost use Rattle.vd_clear.specs.Copies.{applied_at, operated, first_of, after_first, written_by, with_number};

use crate::each::Step;
use std::alloc::AllocError;
use vd_base::{HostId, Op};
use vd_duet::{Args, Duet, Part, register_at};
use vd_execution::{Act, Action, Binary, Reg};

/// An operation on the copies that a host has of the operands.
#[derive(Drop)]
pub(crate) struct Apply<'a>(pub(crate) Op, pub(crate) &'a Args);

impl<'a> Step for Apply<'a> {
    ghost made = { λ s. applied_at s.0 (all_placed (λ c. c.0) s.1.now) };

    ghost is_small = { λ s. Unit {0} };

    fn at(&self, host: HostId, to: &mut Duet) -> Result<Reg, AllocError> {
        operate(self.0, registers_of(self.1, host), host, to)
    }
}

/// A host's registers of up to three operands.
#[derive(Clone, Copy)]
struct Operands {
    first: Reg,
    second: Reg,
    third: Reg,
}

fn registers_of(args: &Args, host: HostId) -> Operands
    ensures first { result.first ≡ first_of (all_placed (λ c. c.0) args.now) host }
    ensures second { result.second ≡ first_of (after_first (all_placed (λ c. c.0) args.now)) host }
    ensures third { result.third ≡ first_of (after_first (after_first (all_placed (λ c. c.0) args.now))) host }
{
    let none = Reg(0);
    match args.as_slice() {
        [] => Operands {
            first: none,
            second: none,
            third: none,
        },
        [x] => Operands {
            first: register_at(x, host),
            second: none,
            third: none,
        },
        [x, y] => Operands {
            first: register_at(x, host),
            second: register_at(y, host),
            third: none,
        },
        [x, y, z, ..] => Operands {
            first: register_at(x, host),
            second: register_at(y, host),
            third: register_at(z, host),
        },
    }
}

/// The instructions of an operation in clear.
fn operate(op: Op, on: Operands, host: HostId, to: &mut Duet) -> Result<Reg, AllocError>
    requires known { host.0 < length to.old.next }
    requires room { slice_index to.old.next host.0 + 8 < 2 ^ 32 }
    ensures exact { IfOk result (λ r. Makes (operated op on.first on.second on.third host) to.old r to.new) }
    ensures few { OnOk result (TakesAtMost 8 to.old.next to.new.next) }
{
    match op {
        Op::Add => binary(host, Binary::Add, on, to),
        Op::Sub => binary(host, Binary::Sub, on, to),
        Op::Mul => binary(host, Binary::Mul, on, to),
        Op::Scale(factor) => with_number(host, Binary::Mul, on.first, factor, to),
        Op::Div => binary(host, Binary::Div, on, to),
        Op::Rem => binary(host, Binary::Rem, on, to),
        Op::And => binary(host, Binary::And, on, to),
        Op::Or => binary(host, Binary::Or, on, to),
        Op::Xor => binary(host, Binary::Xor, on, to),
        Op::Not => with_number(host, Binary::Xor, on.first, u32::MAX, to),
        Op::Flip => with_number(host, Binary::Xor, on.first, 1, to),
        Op::Shl(bits) => {
            let at = to.reserve(host, 1);
            to.add(Act::Do(host, Action::Shl(at, on.first, bits)))?;
            Ok(at)
        }
        Op::Shr(bits) => {
            let at = to.reserve(host, 1);
            to.add(Act::Do(host, Action::Shr(at, on.first, bits)))?;
            Ok(at)
        }
        Op::Eq => binary(host, Binary::Eq, on, to),
        Op::Ne => binary(host, Binary::Ne, on, to),
        Op::Lt => binary(host, Binary::Lt, on, to),
        Op::Le => binary(host, Binary::Le, on, to),
        Op::Min => binary(host, Binary::Min, on, to),
        Op::Max => binary(host, Binary::Max, on, to),
        Op::Mux => {
            let at = to.reserve(host, 1);
            to.add(Act::Do(host, Action::Mux(at, on.first, on.second, on.third)))?;
            Ok(at)
        }
    }
}

/// An operation on two registers.
fn binary(host: HostId, op: Binary, on: Operands, to: &mut Duet) -> Result<Reg, AllocError>
    requires known { host.0 < length to.old.next }
    requires room { slice_index to.old.next host.0 + 8 < 2 ^ 32 }
    ensures exact { IfOk result (λ r. Makes (written_by host (λ r. action.Apply op r on.first on.second)) to.old r to.new) }
    ensures few { OnOk result (TakesAtMost 8 to.old.next to.new.next) }
{
    let at = to.reserve(host, 1);
    to.add(Act::Do(host, Action::Apply(op, at, on.first, on.second)))?;
    Ok(at)
}

/// An operation on a register and a number.
fn with_number(
    host: HostId,
    op: Binary,
    x: Reg,
    number: u32,
    to: &mut Duet,
) -> Result<Reg, AllocError>
    requires known { host.0 < length to.old.next }
    requires room { slice_index to.old.next host.0 + 8 < 2 ^ 32 }
    ensures exact { IfOk result (λ r. Makes (with_number host number op x) to.old r to.new) }
    ensures few { OnOk result (TakesAtMost 8 to.old.next to.new.next) }
{
    let constant = to.reserve(host, 2);
    let at = Reg(constant.0 + 1);
    to.add(Act::Do(host, Action::Const(constant, number)))?;
    to.add(Act::Do(host, Action::Apply(op, at, x, constant)))?;
    Ok(at)
}
