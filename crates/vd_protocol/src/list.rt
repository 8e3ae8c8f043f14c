ghost use Rattle.std.specs.Prelude.{◌≡◌, ◌≤◌, ◌++◌, IfOk, OnOk, map};
ghost use Rattle.vd_base.specs.Limits.{most_hosts};
ghost use Rattle.vd_base.specs.HostSets.{hosts as hosts_of};
ghost use Rattle.vd_base.specs.Protocols.{groups, pairs, protocols_of};
ghost use Rattle.vd_base.specs.declared.protocols.Proto.TheVariants as proto;
ghost use Rattle.vd_protocol.specs.Pairings.{protocol_of, takes};

use std::alloc::{AllocError, Global};
use vd_base::{HostId, HostSet, Items, Proto};

/// The protocols over so many hosts, in order.
pub fn protocols(alloc: Global, hosts: u8) -> Result<Items<Proto>, AllocError>
    requires { hosts ≤ most_hosts }
    ensures { IfOk result (λ list. list ≡ protocols_of hosts) }
{
    let mut list = Items::new(alloc);
    push_local(&mut list, hosts)?;
    push_copies(&mut list, hosts)?;
    push_pairs(&mut list, Pairing::Commit, hosts)?;
    push_pairs(&mut list, Pairing::Add, hosts)?;
    push_pairs(&mut list, Pairing::Xor, hosts)?;
    Ok(list)
}

fn push_local(list: &mut Items<Proto>, hosts: u8) -> Result<(), AllocError>
    ensures { OnOk result (list.new ≡ list.old ++ map proto.Local (hosts_of hosts)) }
{
    for host in 0..hosts {
        list.push(Proto::Local(HostId(host)))?;
    }
    Ok(())
}

fn push_copies(list: &mut Items<Proto>, hosts: u8) -> Result<(), AllocError>
    requires { hosts ≤ most_hosts }
    ensures { OnOk result (list.new ≡ list.old ++ map proto.Rep (groups hosts)) }
{
    for bits in 0..1u8 << hosts {
        let set = HostSet { bits };
        if set.size() >= 2 {
            list.push(Proto::Rep(set))?;
        }
    }
    Ok(())
}

/// A kind of protocol that two hosts hold together.
#[derive(Clone, Copy)]
enum Pairing {
    Commit,
    Add,
    Xor,
}

impl Pairing {
    ghost use Rattle.vd_protocol.specs.Pairings.{protocol_of, takes};

    /// Whether there is one of these hosts in this order.
    fn takes(self, first: HostId, second: HostId) -> bool
        ensures { result ≡ takes self first second }
    {
        match self {
            Pairing::Commit => first != second,
            Pairing::Add | Pairing::Xor => first.0 < second.0,
        }
    }

    /// The one of these hosts.
    fn protocol(self, first: HostId, second: HostId) -> Proto
        ensures { result ≡ protocol_of self first second }
    {
        match self {
            Pairing::Commit => Proto::Commit(first, second),
            Pairing::Add => Proto::Add(first, second),
            Pairing::Xor => Proto::Xor(first, second),
        }
    }
}

fn push_pairs(list: &mut Items<Proto>, pairing: Pairing, hosts: u8) -> Result<(), AllocError>
    ensures { OnOk result (list.new ≡ list.old ++ pairs (takes pairing) (protocol_of pairing) hosts) }
{
    for first in 0..hosts {
        for second in 0..hosts {
            if pairing.takes(HostId(first), HostId(second)) {
                list.push(pairing.protocol(HostId(first), HostId(second)))?;
            }
        }
    }
    Ok(())
}
