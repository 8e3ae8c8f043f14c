ghost use Rattle.std.specs.Prelude.{ℕ, ◌≡◌, ◌<◌, ◌≤◌, IfOk, length, true};
ghost use Rattle.vd_base.specs.HostSets.{host};
ghost use Rattle.vd_base.specs.Holders.{has_clear, holders, is_among, is_holder, proto_in, same_protocol};
ghost use Rattle.vd_base.specs.declared.protocols.Proto.{Proto as Protocols};

use crate::base_lists::Items;
use crate::{HostId, SlotId};
use std::alloc::{AllocError, Global};

/// A set of hosts, by the number whose bit h stands for host h.
#[derive(Clone, Copy, PartialEq, Eq)]
pub struct HostSet {
    pub bits: u8,
}

/// Where, and under which cryptography, a value is held.
#[derive(Clone, Copy, PartialEq, Eq)]
pub enum Proto {
    /// In clear at one host.
    Local(HostId),
    /// A copy in clear at each of two or more hosts.
    Rep(HostSet),
    /// In clear at the first host, and as a hash commitment at the second.
    Commit(HostId, HostId),
    /// Additively shared by two hosts, the earlier one first.
    Add(HostId, HostId),
    /// Shared by exclusive or between two hosts, the earlier one first.
    Xor(HostId, HostId),
}

/// The hosts of a protocol, in the order of their parts.
pub fn holders(protocol: Proto, alloc: Global) -> Result<Items<HostId>, AllocError>
    ensures exact { IfOk result (λ hosts. hosts ≡ holders protocol) }
    ensures few { IfOk result (λ hosts. length hosts ≤ 8) }
{
    match protocol {
        Proto::Local(host) => Ok(Items::from_slice(alloc, &[host])?),
        Proto::Rep(set) => set.members(alloc),
        Proto::Commit(first, second) | Proto::Add(first, second) | Proto::Xor(first, second) => {
            Ok(Items::from_slice(alloc, &[first, second])?)
        }
    }
}

/// Whether the host has a part of what is held at the protocol.
pub fn is_holder(protocol: Proto, host: HostId) -> bool
    ensures { result ≡ is_holder protocol host }
{
    match protocol {
        Proto::Local(at) => at == host,
        Proto::Rep(set) => set.has(host),
        Proto::Commit(first, second) | Proto::Add(first, second) | Proto::Xor(first, second) => {
            first == host || second == host
        }
    }
}

/// A host below 8 has a part exactly where it is among the hosts of the protocol.
pub fn holders_are_listed()
    ensures { (p : Protocols) (h : ℕ) → h < 8 → is_holder p (host h) ≡ is_among (holders p) h }
{}

/// Whether the host has in clear what is held at the protocol: alone, as a copy, or as the one that is bound to it.
pub fn has_clear(protocol: Proto, host: HostId) -> bool
    ensures { result ≡ has_clear host protocol }
{
    match protocol {
        Proto::Local(at) => at == host,
        Proto::Rep(set) => set.has(host),
        Proto::Commit(prover, _) => prover == host,
        Proto::Add(_, _) | Proto::Xor(_, _) => false,
    }
}

/// Whether two protocols are the same.
pub fn is_same(first: Proto, second: Proto) -> bool
    ensures { result ≡ same_protocol first second }
{
    match (first, second) {
        (Proto::Local(host), Proto::Local(other)) => host == other,
        (Proto::Rep(set), Proto::Rep(other)) => set.bits == other.bits,
        (Proto::Commit(a, b), Proto::Commit(c, d)) => a == c && b == d,
        (Proto::Add(a, b), Proto::Add(c, d)) => a == c && b == d,
        (Proto::Xor(a, b), Proto::Xor(c, d)) => a == c && b == d,
        _ => false,
    }
}

/// Protocols that are the same by the test are one.
pub fn same_protocols_are_one()
    ensures { (p q : Protocols) → same_protocol p q ≡ true → p ≡ q }
{}

/// The protocol at a place of a list.
pub fn protocol_at(list: &[Proto], place: u32) -> Proto
    ensures { result ≡ proto_in list.now place }
{
    match list.get(place as usize) {
        Some(protocol) => *protocol,
        None => Proto::Local(HostId(0)),
    }
}

/// The protocol of a slot, where a list has one for each.
pub fn proto_of(protocols: &[Proto], slot: SlotId) -> Proto
    ensures { result ≡ proto_in protocols.now slot.0 }
{
    protocol_at(protocols, u32::from(slot.0))
}
