//! What a host's code takes from all its lists.

ghost use Rattle.std.specs.Prelude.{◌≡◌, ◌≤◌, All, IfOk, length, map};
ghost use Rattle.std.specs.List.{range_with_len};
ghost use Rattle.vd_base.specs.Limits.{most_hosts};
ghost use Rattle.vd_deal_needs.specs.DealNeedsLawsNeeds.{counts};
ghost use Rattle.vd_deal_needs.specs.Counted.{IsCountable, code_in};
ghost use Rattle.vd_deal_needs.specs.Needs.{needs_by, needs_of, shared_by};

use crate::counting::count;
use crate::lists::ItemList;
use std::alloc::{AllocError, Global};
use vd_base::{HostId, Items};
use vd_execution::Instr;

/// How many items of each kind a host takes of those that it shares with a peer.
#[derive(Clone, Copy, PartialEq, Eq)]
pub struct Shared {
    /// Products of words.
    pub muls: u32,
    /// Products of bits.
    pub ands: u32,
    /// Words that are sums and exclusive ors.
    pub pairs: u32,
}

/// How many inputs and dealt items a host's code takes at most.
#[derive(Drop)]
pub struct HostNeeds {
    /// Inputs.
    pub inputs: u32,
    /// Own words.
    pub own: u32,
    /// The items that it shares with each host, by the host's number. With itself it shares none.
    pub shared: Items<Shared>,
}

/// What a code takes of the items that its host shares with a peer.
fn shared_with(alloc: Global, code: &[Instr], peer: HostId) -> Result<Shared, AllocError>
    requires { IsCountable code.now }
    ensures { IfOk result (λ shared. shared ≡ shared_by (counts (code_in code.now)) peer.0) }
{
    let muls = count(alloc, code, ItemList::Muls(peer))?;
    let ands = count(alloc, code, ItemList::Ands(peer))?;
    let pairs = count(alloc, code, ItemList::Pairs(peer))?;
    Ok(Shared { muls, ands, pairs })
}

/// What a code takes of the items that its host shares with each of so many hosts.
fn shared_with_all(alloc: Global, hosts: u8, code: &[Instr]) -> Result<Items<Shared>, AllocError>
    requires { IsCountable code.now }
    ensures { IfOk result (λ list. list ≡ map (shared_by (counts (code_in code.now))) (range_with_len 0 hosts)) }
{
    let mut list = Items::new(alloc);
    for number in 0..hosts {
        let shared = shared_with(alloc, code, HostId(number))?;
        list.push(shared)?;
    }
    Ok(list)
}

/// What the code of one of so many hosts takes at most.
pub fn host_needs(alloc: Global, hosts: u8, code: &[Instr]) -> Result<HostNeeds, AllocError>
    requires { IsCountable code.now }
    ensures { IfOk result (λ needs. needs ≡ needs_by hosts (counts (code_in code.now))) }
{
    let inputs = count(alloc, code, ItemList::Inputs)?;
    let own = count(alloc, code, ItemList::Own)?;
    let shared = shared_with_all(alloc, hosts, code)?;
    Ok(HostNeeds {
        inputs,
        own,
        shared,
    })
}

/// What the codes of all hosts take at most, in host order.
pub fn needs(alloc: Global, codes: &[Items<Instr>]) -> Result<Items<HostNeeds>, AllocError>
    requires few { length codes.now ≤ most_hosts }
    requires countable { All IsCountable codes.now }
    ensures { IfOk result (λ needs. needs ≡ needs_of codes.now) }
{
    let hosts = codes.len() as u8;
    let mut list = Items::new(alloc);
    for code in codes {
        let needs = host_needs(alloc, hosts, code.as_slice())?;
        list.push(needs)?;
    }
    Ok(list)
}
