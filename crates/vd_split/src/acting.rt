ghost use Rattle.std.specs.Prelude.{◌≡◌, ◌||◌, nat_eq};
ghost use Rattle.std.specs.List.{list_any};
ghost use Rattle.vd_base.specs.declared.protocols.Proto.TheVariants.{Local as AtHost};
ghost use Rattle.vd_base.specs.Holders.{is_holder, proto_in};
ghost use Rattle.vd_split.specs.Suite.{picked, holders_among};
ghost use Rattle.vd_split.specs.Emission.{right_acts_at, emission};
ghost use Rattle.vd_split.specs.Places.{takers, acting, guard_acts, branch_acts};

use crate::protocols::Protocols;
use crate::taking::takes_either;
use vd_base::{HostId, Op, Proto, SlotId, is_holder, proto_of};
use vd_core::{Right, Stmt};

/// Whether a host has an instruction where a word is moved to each host of a protocol.
#[tactic(auto, using(crate::proofs::Picked::any_none, crate::proofs::Picked::any_here, crate::proofs::Picked::any_absent, crate::proofs::Picked::any_fails))]
fn acts_in_index<P: Protocols>(protocols: &P, from: Proto, proto: Proto, host: HostId) -> bool
    ensures { result ≡ list_any (λ k. (P.offer protocols.now).calls.moves_at from (AtHost k) host.0)
        (holders_among (P.offer protocols.now).calls proto) }
{
    for number in 0..protocols.hosts() {
        if is_holder(proto, HostId(number)) {
            if protocols.moves_at(from, Proto::Local(HostId(number)), host) {
                return true;
            }
        }
    }
    false
}

/// Whether a host has an instruction where the guard of two blocks is moved.
#[tactic(auto, using(crate::proofs::Picked::any_none, crate::proofs::Picked::any_here, crate::proofs::Picked::any_absent, crate::proofs::Picked::any_fails))]
fn acts_in_guard<P: Protocols>(
    protocols: &P,
    protos: &[Proto],
    from: Proto,
    then_block: &[Stmt],
    else_block: &[Stmt],
    host: HostId,
) -> bool
    ensures { result ≡ guard_acts (P.offer protocols.now).calls protos.now from then_block.now else_block.now host.0 }
{
    for number in 0..protocols.hosts() {
        if takes_either(protocols, protos, then_block, else_block, HostId(number)) {
            if protocols.moves_at(from, Proto::Local(HostId(number)), host) {
                return true;
            }
        }
    }
    false
}

/// Whether a host has an instruction of a branch.
fn acts_in_branch<P: Protocols>(
    protocols: &P,
    protos: &[Proto],
    from: Proto,
    then_block: &[Stmt],
    else_block: &[Stmt],
    host: HostId,
) -> bool
    ensures { result ≡ branch_acts (P.offer protocols.now).calls protos.now from then_block.now else_block.now host.0 }
{
    acts_in_guard(protocols, protos, from, then_block, else_block, host)
        || takes_either(protocols, protos, then_block, else_block, host)
}

/// Whether a host has an instruction where operands are moved.
fn acts_in_operands<P: Protocols>(
    protocols: &P,
    protos: &[Proto],
    slots: &[SlotId],
    onto: Proto,
    host: HostId,
) -> bool
    ensures { result ≡ list_any (λ slot. (P.offer protocols.now).calls.moves_at (proto_in protos.now slot.0) onto host.0) slots.now }
{
    for slot in slots {
        if protocols.moves_at(proto_of(protos, *slot), onto, host) {
            return true;
        }
    }
    false
}

/// Whether a host has an instruction where a slot's word is moved to a protocol and stored there.
fn acts_in_store<P: Protocols>(
    protocols: &P,
    protos: &[Proto],
    slot: SlotId,
    onto: Proto,
    host: HostId,
) -> bool
    ensures { result ≡ (P.offer protocols.now).calls.moves_at (proto_in protos.now slot.0) onto host.0 || is_holder onto host }
{
    protocols.moves_at(proto_of(protos, slot), onto, host) || is_holder(onto, host)
}

/// Whether a host has an instruction where a word is put into an array.
fn acts_in_put<P: Protocols>(
    protocols: &P,
    protos: &[Proto],
    array: SlotId,
    index: SlotId,
    slot: SlotId,
    host: HostId,
) -> bool
    ensures { let s = (P.offer protocols.now).calls in let onto = proto_in protos.now array.0 in
        result ≡ list_any (λ k. s.moves_at (proto_in protos.now index.0) (AtHost k) host.0) (holders_among s onto)
        || s.moves_at (proto_in protos.now slot.0) onto host.0 || is_holder onto host }
{
    let proto = proto_of(protos, array);
    acts_in_index(protocols, proto_of(protos, index), proto, host)
        || acts_in_store(protocols, protos, slot, proto, host)
}

/// Whether a host has an instruction where a slot's word is printed at a host.
fn acts_in_output<P: Protocols>(
    protocols: &P,
    protos: &[Proto],
    slot: SlotId,
    at: HostId,
    host: HostId,
) -> bool
    ensures { result ≡ (P.offer protocols.now).calls.moves_at (proto_in protos.now slot.0) (AtHost at) host.0
        || nat_eq at.0 host.0 }
{
    protocols.moves_at(proto_of(protos, slot), Proto::Local(at), host) || at.0 == host.0
}

/// Whether a host has an instruction where a word that stands at a protocol is copied and then moved.
fn acts_in_load<P: Protocols>(protocols: &P, proto: Proto, at: Proto, host: HostId) -> bool
    ensures { result ≡ is_holder proto host || (P.offer protocols.now).calls.moves_at proto at host.0 }
{
    is_holder(proto, host) || protocols.moves_at(proto, at, host)
}

/// Whether a host has an instruction of an operation.
fn acts_in_apply<P: Protocols>(
    protocols: &P,
    protos: &[Proto],
    at: Proto,
    op: Op,
    slots: &[SlotId],
    host: HostId,
) -> bool
    ensures { let s = (P.offer protocols.now).calls in
        result ≡ list_any (λ slot. s.moves_at (proto_in protos.now slot.0) at host.0) slots.now || s.applies_at op at host.0 }
{
    acts_in_operands(protocols, protos, slots, at, host) || protocols.applies_at(op, at, host)
}

/// Whether a host has an instruction where a word of an array is read.
fn acts_in_element<P: Protocols>(
    protocols: &P,
    protos: &[Proto],
    at: Proto,
    array: SlotId,
    index: SlotId,
    host: HostId,
) -> bool
    ensures { let s = (P.offer protocols.now).calls in let from = proto_in protos.now array.0 in
        result ≡ list_any (λ k. s.moves_at (proto_in protos.now index.0) (AtHost k) host.0) (holders_among s from)
        || is_holder from host || s.moves_at from at host.0 }
{
    let proto = proto_of(protos, array);
    acts_in_index(protocols, proto_of(protos, index), proto, host)
        || acts_in_load(protocols, proto, at, host)
}

/// Whether a host has an instruction of a right side.
fn right_acts<P: Protocols>(
    protocols: &P,
    protos: &[Proto],
    at: Proto,
    right: &Right,
    host: HostId,
) -> bool
    ensures { result ≡ right_acts_at (P.offer protocols.now).calls (proto_in protos.now) at right.now host.0 }
{
    match right {
        Right::Lit(_) => is_holder(at, host),
        Right::Turn => is_holder(at, host),
        Right::Copy(slot) => protocols.moves_at(proto_of(protos, *slot), at, host),
        Right::Apply(op, slots) => {
            acts_in_apply(protocols, protos, at, *op, slots.as_slice(), host)
        }
        Right::Input(from) => from.0 == host.0,
        Right::Declassify(slot, _) => protocols.moves_at(proto_of(protos, *slot), at, host),
        Right::Endorse(slot, _) => protocols.moves_at(proto_of(protos, *slot), at, host),
        Right::Load(variable) => acts_in_load(protocols, proto_of(protos, *variable), at, host),
        Right::Get(array, index) => { acts_in_element(protocols, protos, at, *array, *index, host) }
    }
}

/// Whether a host has an instruction of a statement.
#[cycle(acts)]
fn acts<P: Protocols>(protocols: &P, protos: &[Proto], stmt: &Stmt, host: HostId) -> bool
    ensures { result ≡ (emission (P.offer protocols.now).calls (proto_in protos.now) stmt.now).acts_at host.0 }
{
    match stmt {
        Stmt::Let(slot, right) => right_acts(
            protocols,
            protos,
            proto_of(protos, *slot),
            right,
            host,
        ),
        Stmt::NewVar(variable, slot) => {
            acts_in_store(protocols, protos, *slot, proto_of(protos, *variable), host)
        }
        Stmt::NewArray(array, _) => is_holder(proto_of(protos, *array), host),
        Stmt::Store(variable, slot) => {
            acts_in_store(protocols, protos, *slot, proto_of(protos, *variable), host)
        }
        Stmt::Put(array, index, slot) => {
            acts_in_put(protocols, protos, *array, *index, *slot, host)
        }
        Stmt::Output(slot, at, _) => acts_in_output(protocols, protos, *slot, *at, host),
        Stmt::If(guard, then_block, else_block, _) => {
            acts_in_branch(
                protocols,
                protos,
                proto_of(protos, *guard),
                then_block.as_slice(),
                else_block.as_slice(),
                host,
            )
        }
        Stmt::For(_, body) => any_acts(protocols, protos, body.as_slice(), host),
    }
}

/// Whether a host has an instruction of some of the statements.
#[cycle(acts)]
pub(crate) fn any_acts<P: Protocols>(
    protocols: &P,
    protos: &[Proto],
    body: &[Stmt],
    host: HostId,
) -> bool
    ensures { result ≡ acting (P.offer protocols.now).calls protos.now body.now host.0 }
{
    for stmt in body {
        if acts(protocols, protos, stmt, host) {
            return true;
        }
    }
    false
}
