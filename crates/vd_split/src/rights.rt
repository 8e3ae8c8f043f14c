ghost use Rattle.std.specs.Prelude.{◌≡◌, ◌<◌, [], IsTrue, IfOk, OnOk, length};
ghost use Rattle.vd_base.specs.declared.operations.Op.{Op as Operation};
ghost use Rattle.vd_base.specs.Holders.{holders};
ghost use Rattle.vd_core.specs.declared.normal.Right.TheVariants as right;
ghost use Rattle.vd_duet.specs.Builder.{TakesAtMost, TakesFew};
ghost use Rattle.vd_split.specs.Offer.{IsReady, right_fits, most_of_statement};
ghost use Rattle.vd_split.specs.Places.{right_onto};

use crate::moves::{deliver, move_all, move_slot};
use crate::protocols::Protocols;
use crate::slots::{hosts_at, parts_of};
use std::alloc::AllocError;
use vd_base::{Items, Op, Proto, SlotId, proto_of};
use vd_core::Right;
use vd_duet::Duet;

/// An operation on slots.
fn apply<P: Protocols>(
    protocols: &P,
    protos: &[Proto],
    at: Proto,
    op: Op,
    slots: &Items<SlotId>,
    held: &Items<P::Parts>,
    to: &mut Duet,
) -> Result<P::Parts, AllocError>
    requires ready { IsReady (P.offer protocols.now) protos.now held.now most_of_statement to.old.next }
    requires at { IsTrue ((P.offer protocols.now).has at) }
    requires fits { IsTrue (right_fits (P.offer protocols.now) protos.now at (right.Apply op slots.now) (length held.now)) }
    ensures exact { IfOk result (λ x. (x, to.new) ≡ right_onto (P.offer protocols.now).calls protos.now at
        (right.Apply op slots.now) held.now [] to.old) }
    ensures placed { IfOk result (λ x. (P.offer protocols.now).hosts_at at x ≡ holders at) }
    ensures few { OnOk result (TakesAtMost most_of_statement to.old.next to.new.next) }
{
    let operands = move_all(protocols, protos, held, slots.as_slice(), at, to)?;
    let parts = protocols.apply(op, at, &operands, to)?;
    Ok(parts)
}

/// The word of a variable, which is copied first.
fn load<P: Protocols>(
    protocols: &P,
    protos: &[Proto],
    at: Proto,
    variable: SlotId,
    held: &Items<P::Parts>,
    to: &mut Duet,
) -> Result<P::Parts, AllocError>
    requires ready { IsReady (P.offer protocols.now) protos.now held.now most_of_statement to.old.next }
    requires at { IsTrue ((P.offer protocols.now).has at) }
    requires variable { variable.0 < length held.now }
    ensures exact { IfOk result (λ x. (x, to.new) ≡ right_onto (P.offer protocols.now).calls protos.now at (right.Load variable)
        held.now [] to.old) }
    ensures placed { IfOk result (λ x. (P.offer protocols.now).hosts_at at x ≡ holders at) }
    ensures few { OnOk result (TakesAtMost most_of_statement to.old.next to.new.next) }
{
    let proto = proto_of(protos, variable);
    let kept = protocols.keep(proto, parts_of(protocols, held, variable), to)?;
    let parts = protocols.bring(proto, at, &kept, to)?;
    Ok(parts)
}

/// A word of an array, whose hosts are told the index.
fn element<P: Protocols>(
    protocols: &P,
    protos: &[Proto],
    at: Proto,
    array: SlotId,
    index: SlotId,
    held: &Items<P::Parts>,
    to: &mut Duet,
) -> Result<P::Parts, AllocError>
    requires ready { IsReady (P.offer protocols.now) protos.now held.now most_of_statement to.old.next }
    requires at { IsTrue ((P.offer protocols.now).has at) }
    requires array { array.0 < length held.now }
    requires index { index.0 < length held.now }
    ensures exact { IfOk result (λ x. (x, to.new) ≡ right_onto (P.offer protocols.now).calls protos.now at (right.Get array index)
        held.now [] to.old) }
    ensures placed { IfOk result (λ x. (P.offer protocols.now).hosts_at at x ≡ holders at) }
    ensures few { OnOk result (TakesAtMost most_of_statement to.old.next to.new.next) }
{
    let proto = proto_of(protos, array);
    let hosts = hosts_at(protocols, proto, to)?;
    let index = deliver(protocols, protos, held, index, hosts.as_slice(), to)?;
    let cell = protocols.get(
        proto,
        parts_of(protocols, held, array),
        index.as_slice(),
        to,
    )?;
    let parts = protocols.bring(proto, at, &cell, to)?;
    Ok(parts)
}

/// The right side of a binding.
pub(crate) fn right_side<P: Protocols>(
    protocols: &P,
    protos: &[Proto],
    at: Proto,
    right: &Right,
    held: &Items<P::Parts>,
    turns: &[u32],
    to: &mut Duet,
) -> Result<P::Parts, AllocError>
    requires ready { IsReady (P.offer protocols.now) protos.now held.now most_of_statement to.old.next }
    requires at { IsTrue ((P.offer protocols.now).has at) }
    requires fits { IsTrue (right_fits (P.offer protocols.now) protos.now at right.now (length held.now)) }
    ensures exact { IfOk result (λ x. (x, to.new) ≡ right_onto (P.offer protocols.now).calls protos.now at right.now held.now
        turns.now to.old) }
    ensures placed { IfOk result (λ x. (P.offer protocols.now).hosts_at at x ≡ holders at) }
    ensures few { OnOk result (TakesAtMost most_of_statement to.old.next to.new.next) }
{
    match right {
        Right::Lit(word) => protocols.literal(at, *word, to),
        Right::Turn => protocols.turn(at, turns, to),
        Right::Copy(slot) => move_slot(protocols, protos, held, *slot, at, to),
        Right::Apply(op, slots) => apply(protocols, protos, at, *op, slots, held, to),
        Right::Input(host) => protocols.input(*host, to),
        Right::Declassify(slot, _) => move_slot(protocols, protos, held, *slot, at, to),
        Right::Endorse(slot, _) => move_slot(protocols, protos, held, *slot, at, to),
        Right::Load(slot) => load(protocols, protos, at, *slot, held, to),
        Right::Get(array, slot) => element(protocols, protos, at, *array, *slot, held, to),
    }
}
