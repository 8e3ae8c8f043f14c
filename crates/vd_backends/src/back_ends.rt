//! The calls of the back end of a protocol. Of a commitment, which is no back end, nothing is made but by a move.

ghost use Rattle.std.specs.Prelude.{◌≡◌, ◌<◌, IsTrue, IfOk, OnOk, length};
ghost use Rattle.vd_base.specs.Arity.{arity};
ghost use Rattle.vd_base.specs.Holders.{holders};
ghost use Rattle.vd_duet.specs.Builder.{HasRoom, TakesFew};
ghost use Rattle.vd_duet.specs.Calls.{Makes, all_placed, appended, in_clear};
ghost use Rattle.vd_duet.specs.Laws.{AreKnown};
ghost use Rattle.vd_backend_laws.specs.Parts.{back_end};
ghost use Rattle.vd_backends.specs.Formed.{AreFormed};

use crate::commitments::commit_to;
use std::alloc::AllocError;
use vd_base::{HostId, Items, Op, Proto};
use vd_circuit::CircuitPair;
use vd_clear::{LocalHost, Replica};
use vd_duet::{Args, Backend, Duet, Part, Parts};
use vd_execution::Reg;
use vd_words::AddPair;

/// A number. At a commitment, where none can stand, nothing is made.
pub(crate) fn literal(at: Proto, word: u32, to: &mut Duet) -> Result<Parts, AllocError>
    requires known { AreKnown (holders at) to.old.next }
    requires room { HasRoom 0 to.old.next }
    ensures exact { IfOk result (λ x. Makes ((back_end at).literal word) to.old (in_clear x) to.new) }
    ensures hosts { IfOk result (λ x. AreFormed at (in_clear x)) }
    ensures few { OnOk result (TakesFew to.old.next to.new.next) }
{
    match at {
        Proto::Local(host) => LocalHost(host).literal(word, to),
        Proto::Rep(set) => Replica(set).literal(word, to),
        Proto::Add(first, second) => AddPair(first, second).literal(word, to),
        Proto::Xor(first, second) => CircuitPair(first, second).literal(word, to),
        Proto::Commit(_, _) => Ok(Items::new(to.alloc())),
    }
}

/// The move of a word from one host that has it in clear.
pub(crate) fn share(at: Proto, from: HostId, x: Reg, to: &mut Duet) -> Result<Parts, AllocError>
    requires known { AreKnown (holders at) to.old.next }
    requires from { from.0 < length to.old.next }
    requires room { HasRoom 0 to.old.next }
    ensures exact { IfOk result (λ y. Makes ((back_end at).share from x) to.old (in_clear y) to.new) }
    ensures hosts { IfOk result (λ y. AreFormed at (in_clear y)) }
    ensures few { OnOk result (TakesFew to.old.next to.new.next) }
{
    match at {
        Proto::Local(host) => LocalHost(host).share(from, x, to),
        Proto::Rep(set) => Replica(set).share(from, x, to),
        Proto::Add(first, second) => AddPair(first, second).share(from, x, to),
        Proto::Xor(first, second) => CircuitPair(first, second).share(from, x, to),
        Proto::Commit(bound, keeper) => commit_to(bound, keeper, x, to),
    }
}

/// A copy in fresh registers. Of a commitment, which is no variable's, nothing is made.
pub(crate) fn keep(at: Proto, x: &Parts, to: &mut Duet) -> Result<Parts, AllocError>
    requires known { AreKnown (holders at) to.old.next }
    requires placed { AreFormed at (in_clear x.now) }
    requires room { HasRoom 0 to.old.next }
    ensures exact { IfOk result (λ y. Makes ((back_end at).keep (in_clear x.now)) to.old (in_clear y) to.new) }
    ensures hosts { IfOk result (λ y. AreFormed at (in_clear y)) }
    ensures few { OnOk result (TakesFew to.old.next to.new.next) }
{
    match at {
        Proto::Local(host) => LocalHost(host).keep(x, to),
        Proto::Rep(set) => Replica(set).keep(x, to),
        Proto::Add(first, second) => AddPair(first, second).keep(x, to),
        Proto::Xor(first, second) => CircuitPair(first, second).keep(x, to),
        Proto::Commit(_, _) => Ok(Items::new(to.alloc())),
    }
}

/// A copy of `x` into the registers of `kept`. Of a commitment, which is no variable's, nothing is copied.
pub(crate) fn renew(at: Proto, kept: &Parts, x: &Parts, to: &mut Duet) -> Result<(), AllocError>
    requires kept { AreFormed at (in_clear kept.now) }
    requires placed { AreFormed at (in_clear x.now) }
    ensures { OnOk result (to.new ≡ appended ((back_end at).renew (in_clear kept.now) (in_clear x.now)) to.old) }
{
    match at {
        Proto::Local(host) => LocalHost(host).renew(kept, x, to),
        Proto::Rep(set) => Replica(set).renew(kept, x, to),
        Proto::Add(first, second) => AddPair(first, second).renew(kept, x, to),
        Proto::Xor(first, second) => CircuitPair(first, second).renew(kept, x, to),
        Proto::Commit(_, _) => Ok(()),
    }
}

/// An operation on as many operands as it takes. None is served at a commitment.
pub(crate) fn apply(op: Op, at: Proto, args: &Args, to: &mut Duet) -> Result<Parts, AllocError>
    requires known { AreKnown (holders at) to.old.next }
    requires serves { IsTrue ((back_end at).serves op) }
    requires arity { length args.now ≡ arity op }
    requires room { HasRoom 0 to.old.next }
    ensures exact { IfOk result (λ x. Makes ((back_end at).apply op (all_placed (λ c. c.0) args.now)) to.old (in_clear x) to.new) }
    ensures hosts { IfOk result (λ x. AreFormed at (in_clear x)) }
    ensures few { OnOk result (TakesFew to.old.next to.new.next) }
{
    match at {
        Proto::Local(host) => LocalHost(host).apply(op, args, to),
        Proto::Rep(set) => Replica(set).apply(op, args, to),
        Proto::Add(first, second) => AddPair(first, second).apply(op, args, to),
        Proto::Xor(first, second) => CircuitPair(first, second).apply(op, args, to),
        Proto::Commit(_, _) => unreachable!(),
    }
}
