ghost use Rattle.std.specs.Prelude.{◌≡◌, ◌||◌, nat_eq, IfOk};
ghost use Rattle.std.specs.List.{list_any};
ghost use Rattle.vd_base.specs.Holders.{is_holder, proto_in};
ghost use Rattle.vd_split.specs.Emission.{right_takes_part, emission, block_emission};
ghost use Rattle.vd_split.specs.Places.{all_takers, takers};

use crate::protocols::Protocols;
use std::alloc::AllocError;
use vd_base::{HostId, Items, Proto, SlotId, is_holder, proto_of};
use vd_core::{Right, Stmt};
use vd_duet::Duet;

/// Whether some slot stands at a host.
fn any_stands_at(protos: &[Proto], slots: &[SlotId], host: HostId) -> bool
    ensures { result ≡ list_any (λ slot. is_holder (proto_in protos.now slot.0) host) slots.now }
{
    for slot in slots {
        if is_holder(proto_of(protos, *slot), host) {
            return true;
        }
    }
    false
}

/// Whether a slot stands at a host.
fn slot_stands_at(protos: &[Proto], slot: SlotId, host: HostId) -> bool
    ensures { result ≡ is_holder (proto_in protos.now slot.0) host }
{
    is_holder(proto_of(protos, slot), host)
}

/// Whether either of two slots stands at a host.
fn either_stands_at(protos: &[Proto], first: SlotId, second: SlotId, host: HostId) -> bool
    ensures { result ≡ is_holder (proto_in protos.now first.0) host || is_holder (proto_in protos.now second.0) host }
{
    slot_stands_at(protos, first, host) || slot_stands_at(protos, second, host)
}

/// Whether an array, an index of it or a word that is put into it stands at a host.
fn put_stands_at(protos: &[Proto], array: SlotId, index: SlotId, slot: SlotId, host: HostId) -> bool
    ensures { result ≡ is_holder (proto_in protos.now array.0) host || is_holder (proto_in protos.now index.0) host
        || is_holder (proto_in protos.now slot.0) host }
{
    either_stands_at(protos, array, index, host) || slot_stands_at(protos, slot, host)
}

/// Whether a host takes part in an output at a host.
fn takes_output(protos: &[Proto], slot: SlotId, at: HostId, host: HostId) -> bool
    ensures { result ≡ nat_eq at.0 host.0 || is_holder (proto_in protos.now slot.0) host }
{
    at.0 == host.0 || slot_stands_at(protos, slot, host)
}

/// Whether a host takes part in a right side.
fn right_takes<P: Protocols>(protocols: &P, protos: &[Proto], right: &Right, host: HostId) -> bool
    ensures { result ≡ right_takes_part (P.offer protocols.now).calls (proto_in protos.now) right.now host.0 }
{
    match right {
        Right::Lit(_) => false,
        Right::Turn => false,
        Right::Input(_) => false,
        Right::Copy(slot) => slot_stands_at(protos, *slot, host),
        Right::Declassify(slot, _) => slot_stands_at(protos, *slot, host),
        Right::Endorse(slot, _) => slot_stands_at(protos, *slot, host),
        Right::Load(slot) => slot_stands_at(protos, *slot, host),
        Right::Apply(_, slots) => any_stands_at(protos, slots.as_slice(), host),
        Right::Get(array, index) => either_stands_at(protos, *array, *index, host),
    }
}

/// Whether a host takes part in a binding.
fn takes_binding<P: Protocols>(
    protocols: &P,
    protos: &[Proto],
    slot: SlotId,
    right: &Right,
    host: HostId,
) -> bool
    ensures { result ≡ is_holder (proto_in protos.now slot.0) host
        || right_takes_part (P.offer protocols.now).calls (proto_in protos.now) right.now host.0 }
{
    slot_stands_at(protos, slot, host) || right_takes(protocols, protos, right, host)
}

/// Whether a host takes part in a statement.
#[cycle(takes)]
fn takes<P: Protocols>(protocols: &P, protos: &[Proto], stmt: &Stmt, host: HostId) -> bool
    ensures { result ≡ (emission (P.offer protocols.now).calls (proto_in protos.now) stmt.now).takes_part host.0 }
{
    match stmt {
        Stmt::Let(slot, right) => takes_binding(protocols, protos, *slot, right, host),
        Stmt::NewVar(variable, slot) => either_stands_at(protos, *variable, *slot, host),
        Stmt::NewArray(array, _) => slot_stands_at(protos, *array, host),
        Stmt::Store(variable, slot) => either_stands_at(protos, *variable, *slot, host),
        Stmt::Put(array, index, slot) => put_stands_at(protos, *array, *index, *slot, host),
        Stmt::Output(slot, at, _) => takes_output(protos, *slot, *at, host),
        Stmt::If(guard, then_block, else_block, _) => {
            slot_stands_at(protos, *guard, host)
                || any_takes(protocols, protos, then_block.as_slice(), host)
                || any_takes(protocols, protos, else_block.as_slice(), host)
        }
        Stmt::For(_, body) => any_takes(protocols, protos, body.as_slice(), host),
    }
}

/// Whether a host takes part in some of the statements.
#[cycle(takes)]
pub(crate) fn any_takes<P: Protocols>(
    protocols: &P,
    protos: &[Proto],
    body: &[Stmt],
    host: HostId,
) -> bool
    ensures { result ≡ (block_emission (P.offer protocols.now).calls (proto_in protos.now) body.now).takes_part host.0 }
{
    for stmt in body {
        if takes(protocols, protos, stmt, host) {
            return true;
        }
    }
    false
}

/// Whether a host takes part in either of two blocks.
pub(crate) fn takes_either<P: Protocols>(
    protocols: &P,
    protos: &[Proto],
    then_block: &[Stmt],
    else_block: &[Stmt],
    host: HostId,
) -> bool
    ensures { result ≡ takers (P.offer protocols.now).calls protos.now then_block.now else_block.now host.0 }
{
    any_takes(protocols, protos, then_block, host) || any_takes(protocols, protos, else_block, host)
}

/// The hosts that take part in either of two blocks, in order.
#[tactic(auto, using(crate::proofs::Picked::picked_yes, crate::proofs::Picked::picked_no, crate::proofs::Picked::picked_none))]
pub(crate) fn takers_of<P: Protocols>(
    protocols: &P,
    protos: &[Proto],
    then_block: &[Stmt],
    else_block: &[Stmt],
    to: &Duet,
) -> Result<Items<HostId>, AllocError>
    ensures { let s = (P.offer protocols.now).calls in IfOk result (λ hosts. hosts ≡
        all_takers s protos.now then_block.now else_block.now) }
{
    let mut hosts = Items::new(to.alloc());
    for number in 0..protocols.hosts() {
        if takes_either(protocols, protos, then_block, else_block, HostId(number)) {
            hosts.push(HostId(number))?;
        }
    }
    Ok(hosts)
}
