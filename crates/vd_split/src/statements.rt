ghost use Rattle.std.specs.Prelude.{◌≡◌, OnOk, IfOk, length};
ghost use Rattle.vd_core.specs.declared.normal.Stmt.TheOpen.{Stmt-F};
ghost use Rattle.vd_split.specs.Offer.{CanEmit, Adds, binding_fit, variable_fit, array_fit, store_fit, write_fit, tell_fit};
ghost use Rattle.vd_split.specs.Places.{let_onto, variable_onto, array_onto, store_onto, put_onto, output_onto};

use crate::moves::{deliver, move_slot};
use crate::protocols::Protocols;
use crate::rights::right_side;
use crate::slots::{hosts_at, parts_of};
use std::alloc::AllocError;
use vd_base::{HostId, Items, Proto, SlotId, proto_of};
use vd_core::Right;
use vd_duet::Duet;

/// A binding.
pub(crate) fn binding<P: Protocols>(
    protocols: &P,
    protos: &[Proto],
    slot: SlotId,
    right: &Right,
    held: &mut Items<P::Parts>,
    turns: &[u32],
    to: &mut Duet,
) -> Result<(), AllocError>
    requires { CanEmit (P.offer protocols.now) protos.now (binding_fit (P.offer protocols.now) protos.now slot right.now) held.old
        to.old.next }
    ensures exact { OnOk result ((to.new, held.new) ≡ let_onto (P.offer protocols.now).calls protos.now slot right.now held.old
        turns.now to.old) }
    ensures emits { let o = P.offer protocols.now in OnOk result (Adds o protos.now (binding_fit o protos.now slot right.now)
        held.old to.old held.new to.new) }
{
    let made = right_side(
        protocols,
        protos,
        proto_of(protos, slot),
        right,
        held,
        turns,
        to,
    )?;
    held.push(made)?;
    Ok(())
}

/// A variable, and its first word.
pub(crate) fn variable<P: Protocols>(
    protocols: &P,
    protos: &[Proto],
    variable: SlotId,
    slot: SlotId,
    held: &mut Items<P::Parts>,
    to: &mut Duet,
) -> Result<(), AllocError>
    requires { CanEmit (P.offer protocols.now) protos.now (variable_fit variable slot) held.old to.old.next }
    ensures exact { OnOk result ((to.new, held.new) ≡ variable_onto (P.offer protocols.now).calls protos.now variable slot held.old
        to.old) }
    ensures emits { OnOk result (Adds (P.offer protocols.now) protos.now (variable_fit variable slot) held.old to.old held.new to.new) }
{
    let proto = proto_of(protos, variable);
    let moved = move_slot(protocols, protos, held, slot, proto, to)?;
    let kept = protocols.keep(proto, &moved, to)?;
    held.push(kept)?;
    Ok(())
}

/// An array of zeros.
pub(crate) fn array<P: Protocols>(
    protocols: &P,
    protos: &[Proto],
    array: SlotId,
    size: u32,
    held: &mut Items<P::Parts>,
    to: &mut Duet,
) -> Result<(), AllocError>
    requires { CanEmit (P.offer protocols.now) protos.now (array_fit array size) held.old to.old.next }
    ensures exact { OnOk result ((to.new, held.new) ≡ array_onto (P.offer protocols.now).calls protos.now array size held.old to.old) }
    ensures emits { OnOk result (Adds (P.offer protocols.now) protos.now (array_fit array size) held.old to.old held.new to.new) }
{
    let made = protocols.cells(proto_of(protos, array), size, to)?;
    held.push(made)?;
    Ok(())
}

/// A variable gets a new word.
pub(crate) fn store<P: Protocols>(
    protocols: &P,
    protos: &[Proto],
    variable: SlotId,
    slot: SlotId,
    held: &Items<P::Parts>,
    to: &mut Duet,
) -> Result<(), AllocError>
    requires { CanEmit (P.offer protocols.now) protos.now (store_fit variable slot) held.now to.old.next }
    ensures exact { OnOk result ((to.new, held.now) ≡ store_onto (P.offer protocols.now).calls protos.now variable slot held.now to.old) }
    ensures emits { OnOk result (Adds (P.offer protocols.now) protos.now (store_fit variable slot) held.now to.old held.now to.new) }
{
    let proto = proto_of(protos, variable);
    let moved = move_slot(protocols, protos, held, slot, proto, to)?;
    protocols.renew(proto, parts_of(protocols, held, variable), &moved, to)?;
    Ok(())
}

/// A word of an array is written.
pub(crate) fn write<P: Protocols>(
    protocols: &P,
    protos: &[Proto],
    array: SlotId,
    index: SlotId,
    slot: SlotId,
    held: &Items<P::Parts>,
    to: &mut Duet,
) -> Result<(), AllocError>
    requires { CanEmit (P.offer protocols.now) protos.now (write_fit array index slot) held.now to.old.next }
    ensures exact { OnOk result ((to.new, held.now) ≡ put_onto (P.offer protocols.now).calls protos.now array index slot held.now to.old) }
    ensures emits { OnOk result (Adds (P.offer protocols.now) protos.now (write_fit array index slot) held.now to.old held.now to.new) }
{
    let proto = proto_of(protos, array);
    let hosts = hosts_at(protocols, proto, to)?;
    let at = deliver(protocols, protos, held, index, hosts.as_slice(), to)?;
    let moved = move_slot(protocols, protos, held, slot, proto, to)?;
    let kept = parts_of(protocols, held, array);
    protocols.put(proto, kept, at.as_slice(), &moved, to)?;
    Ok(())
}

/// A host is told a word.
pub(crate) fn tell<P: Protocols>(
    protocols: &P,
    protos: &[Proto],
    slot: SlotId,
    host: HostId,
    held: &Items<P::Parts>,
    to: &mut Duet,
) -> Result<(), AllocError>
    requires { CanEmit (P.offer protocols.now) protos.now (tell_fit (P.offer protocols.now).calls.hosts slot host) held.now to.old.next }
    ensures exact { OnOk result ((to.new, held.now) ≡ output_onto (P.offer protocols.now).calls protos.now slot host held.now to.old) }
    ensures emits { let o = P.offer protocols.now in OnOk result (Adds o protos.now (tell_fit o.calls.hosts slot host) held.now
        to.old held.now to.new) }
{
    let moved = move_slot(protocols, protos, held, slot, Proto::Local(host), to)?;
    protocols.output(host, &moved, to)?;
    Ok(())
}
