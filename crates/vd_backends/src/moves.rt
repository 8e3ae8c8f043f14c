//! The moves of words between protocols.

ghost use Rattle.std.specs.Prelude.{◌≡◌, ◌<◌, ◌∷◌, [], IsTrue, IfOk, OnOk, length};
ghost use Rattle.vd_base.specs.declared.protocols.Proto.TheVariants as proto;
ghost use Rattle.vd_base.specs.Holders.{holders};
ghost use Rattle.vd_duet.specs.Builder.{HasRoom, TakesFew};
ghost use Rattle.vd_duet.specs.Calls.{Makes, hosts_of, in_clear};
ghost use Rattle.vd_duet.specs.Laws.{AreKnown};
ghost use Rattle.vd_backend_sharing.specs.PairCalls.{places_at, shares_of};
ghost use Rattle.vd_backend_laws.specs.Commits.{commit_calls};
ghost use Rattle.vd_backend_laws.specs.Moves.{copies_at as copies_of, only as only_of};
ghost use Rattle.vd_backends.specs.Formed.{AreFormed, is_named};
ghost use Rattle.vd_backends.specs.Moving.{Brings, Opens, Shows};

use crate::back_ends::share;
use crate::commitments::{same_bound, show_both, show_bound};
use std::alloc::{AllocError, Global};
use vd_backend_sharing::PartRegisters;
use vd_base::{HostId, HostSet, Items, Proto};
use vd_bits::XorPair;
use vd_circuit::CircuitPair;
use vd_clear::{Replica, spread};
use vd_convert::{to_add, to_xor};
use vd_duet::{Backend, Duet, Part, Parts, register_at};
use vd_execution::Reg;
use vd_words::AddPair;

/// The register of a word that one host has.
fn only(x: &Parts) -> Reg
    ensures { result ≡ only_of (in_clear x.now) }
{
    match x.as_slice() {
        [part, ..] => part.1.0,
        [] => Reg(0),
    }
}

/// The move of a word to one host, in clear.
fn show<B: Backend>(back_end: &B, x: &Parts, at: HostId, to: &mut Duet) -> Result<Parts, AllocError>
    requires known { AreKnown (holders (B.calls back_end.now).proto) to.old.next }
    requires at { at.0 < length to.old.next }
    requires placed { hosts_of (in_clear x.now) ≡ holders (B.calls back_end.now).proto }
    requires room { HasRoom 0 to.old.next }
    ensures exact { IfOk result (λ y. Shows (B.calls back_end.now) at (in_clear x.now) to.old (in_clear y) to.new) }
    ensures hosts { IfOk result (λ y. hosts_of (in_clear y) ≡ holders (proto.Local at)) }
    ensures few { OnOk result (TakesFew to.old.next to.new.next) }
{
    let shown = back_end.show(x, at, to)?;
    Ok(Items::from_slice(to.alloc(), &[(at, shown)])?)
}

/// The move of a word from copies to another protocol.
fn bring_copies(set: HostSet, onto: Proto, x: &Parts, to: &mut Duet) -> Result<Parts, AllocError>
    requires known { AreKnown (holders (proto.Rep set)) to.old.next }
    requires onto_known { AreKnown (holders onto) to.old.next }
    requires placed { hosts_of (in_clear x.now) ≡ holders (proto.Rep set) }
    requires room { HasRoom 0 to.old.next }
    ensures exact { IfOk result (λ y. Brings (proto.Rep set) onto (in_clear x.now) to.old (in_clear y) to.new) }
    ensures hosts { IfOk result (λ y. AreFormed onto (in_clear y)) }
    ensures few { OnOk result (TakesFew to.old.next to.new.next) }
{
    match onto {
        Proto::Local(host) => show(&Replica(set), x, host, to),
        Proto::Rep(other) => spread(x, set, other, to),
        Proto::Add(first, second) => AddPair(first, second).adopt(x, to),
        Proto::Xor(first, second) => CircuitPair(first, second).adopt(x, to),
        Proto::Commit(_, _) => Ok(Items::new(to.alloc())),
    }
}

/// Of copies, those at these hosts.
fn copies_at(hosts: &[HostId], x: &Parts, alloc: Global) -> Result<Parts, AllocError>
    ensures exact { IfOk result (λ y. in_clear y ≡ copies_of hosts.now (in_clear x.now)) }
    ensures hosts { IfOk result (λ y. hosts_of (in_clear y) ≡ hosts.now) }
{
    let mut copies = Items::new(alloc);
    for host in hosts {
        copies.push((*host, Part(register_at(x, *host))))?;
    }
    Ok(copies)
}

/// The registers of two parts, as those of these hosts.
fn same(first: HostId, second: HostId, x: &Parts, alloc: Global) -> Result<Parts, AllocError>
    ensures { IfOk result (λ y. in_clear y ≡ places_at first second (shares_of (in_clear x.now))) }
{
    PartRegisters::of(x).at(first, second, alloc)
}

/// The move of a word to copies at these hosts.
fn open<B: Backend>(
    back_end: &B,
    set: HostSet,
    x: &Parts,
    to: &mut Duet,
) -> Result<Parts, AllocError>
    requires known { AreKnown (holders (B.calls back_end.now).proto) to.old.next }
    requires placed { hosts_of (in_clear x.now) ≡ holders (B.calls back_end.now).proto }
    requires room { HasRoom 0 to.old.next }
    ensures exact { IfOk result (λ y. Opens (B.calls back_end.now) set (in_clear x.now) to.old (in_clear y) to.new) }
    ensures hosts { IfOk result (λ y. hosts_of (in_clear y) ≡ holders (proto.Rep set)) }
    ensures few { OnOk result (TakesFew to.old.next to.new.next) }
{
    let all = back_end.show_all(x, to)?;
    let hosts = set.members(to.alloc())?;
    copies_at(hosts.as_slice(), &all, to.alloc())
}

/// The move of a word from sums of two hosts to another protocol.
fn bring_sums(
    first: HostId,
    second: HostId,
    onto: Proto,
    x: &Parts,
    to: &mut Duet,
) -> Result<Parts, AllocError>
    requires known { AreKnown (holders (proto.Add first second)) to.old.next }
    requires onto_known { AreKnown (holders onto) to.old.next }
    requires placed { hosts_of (in_clear x.now) ≡ holders (proto.Add first second) }
    requires room { HasRoom 0 to.old.next }
    ensures exact { IfOk result (λ y. Brings (proto.Add first second) onto (in_clear x.now) to.old (in_clear y) to.new) }
    ensures hosts { IfOk result (λ y. AreFormed onto (in_clear y)) }
    ensures few { OnOk result (TakesFew to.old.next to.new.next) }
{
    let pair = AddPair(first, second);
    match onto {
        Proto::Local(host) => show(&pair, x, host, to),
        Proto::Rep(set) => open(&pair, set, x, to),
        Proto::Add(one, other) => same(one, other, x, to.alloc()),
        Proto::Xor(one, other) => to_xor(&AddPair(one, other), x, to),
        Proto::Commit(_, _) => Ok(Items::new(to.alloc())),
    }
}

/// The move of a word from exclusive ors of two hosts to another protocol.
fn bring_bits(
    first: HostId,
    second: HostId,
    onto: Proto,
    x: &Parts,
    to: &mut Duet,
) -> Result<Parts, AllocError>
    requires known { AreKnown (holders (proto.Xor first second)) to.old.next }
    requires onto_known { AreKnown (holders onto) to.old.next }
    requires placed { hosts_of (in_clear x.now) ≡ holders (proto.Xor first second) }
    requires room { HasRoom 0 to.old.next }
    ensures exact { IfOk result (λ y. Brings (proto.Xor first second) onto (in_clear x.now) to.old (in_clear y) to.new) }
    ensures hosts { IfOk result (λ y. AreFormed onto (in_clear y)) }
    ensures few { OnOk result (TakesFew to.old.next to.new.next) }
{
    let pair = CircuitPair(first, second);
    match onto {
        Proto::Local(host) => show(&pair, x, host, to),
        Proto::Rep(set) => open(&pair, set, x, to),
        Proto::Add(one, other) => to_add(&XorPair(one, other), x, to),
        Proto::Xor(one, other) => same(one, other, x, to.alloc()),
        Proto::Commit(_, _) => Ok(Items::new(to.alloc())),
    }
}

/// The move of a committed word to copies at both hosts.
fn open_bound(
    bound: HostId,
    keeper: HostId,
    set: HostSet,
    x: &Parts,
    to: &mut Duet,
) -> Result<Parts, AllocError>
    requires known { AreKnown (bound ∷ keeper ∷ []) to.old.next }
    requires named { IsTrue (is_named (in_clear x.now)) }
    requires room { HasRoom 0 to.old.next }
    ensures exact { IfOk result (λ y. Opens (commit_calls bound keeper) set (in_clear x.now) to.old (in_clear y) to.new) }
    ensures hosts { IfOk result (λ y. hosts_of (in_clear y) ≡ holders (proto.Rep set)) }
    ensures few { OnOk result (TakesFew to.old.next to.new.next) }
{
    let all = show_both(bound, keeper, x, to)?;
    let hosts = set.members(to.alloc())?;
    copies_at(hosts.as_slice(), &all, to.alloc())
}

/// The move of a committed word to another protocol.
fn bring_bound(
    bound: HostId,
    keeper: HostId,
    onto: Proto,
    x: &Parts,
    to: &mut Duet,
) -> Result<Parts, AllocError>
    requires known { AreKnown (bound ∷ keeper ∷ []) to.old.next }
    requires onto_known { AreKnown (holders onto) to.old.next }
    requires named { IsTrue (is_named (in_clear x.now)) }
    requires room { HasRoom 0 to.old.next }
    ensures exact { IfOk result (λ y. Brings (proto.Commit bound keeper) onto (in_clear x.now) to.old (in_clear y) to.new) }
    ensures hosts { IfOk result (λ y. AreFormed onto (in_clear y)) }
    ensures few { OnOk result (TakesFew to.old.next to.new.next) }
{
    match onto {
        Proto::Local(host) => show_bound(bound, keeper, x, host, to),
        Proto::Rep(set) => open_bound(bound, keeper, set, x, to),
        Proto::Commit(one, other) => same_bound(one, other, x, to.alloc()),
        Proto::Add(first, second) => AddPair(first, second).adopt(x, to),
        Proto::Xor(first, second) => CircuitPair(first, second).adopt(x, to),
    }
}

/// The move of a word from one protocol to another. Between two that do not join, what it gives has the form of the second.
pub(crate) fn bring(from: Proto, onto: Proto, x: &Parts, to: &mut Duet) -> Result<Parts, AllocError>
    requires known { AreKnown (holders from) to.old.next }
    requires onto_known { AreKnown (holders onto) to.old.next }
    requires placed { AreFormed from (in_clear x.now) }
    requires room { HasRoom 0 to.old.next }
    ensures exact { IfOk result (λ y. Brings from onto (in_clear x.now) to.old (in_clear y) to.new) }
    ensures hosts { IfOk result (λ y. AreFormed onto (in_clear y)) }
    ensures few { OnOk result (TakesFew to.old.next to.new.next) }
{
    match from {
        Proto::Local(host) => share(onto, host, only(x), to),
        Proto::Rep(set) => bring_copies(set, onto, x, to),
        Proto::Add(first, second) => bring_sums(first, second, onto, x, to),
        Proto::Xor(first, second) => bring_bits(first, second, onto, x, to),
        Proto::Commit(bound, keeper) => bring_bound(bound, keeper, onto, x, to),
    }
}
