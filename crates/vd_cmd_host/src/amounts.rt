//! What a host's code takes from its lists at most, and what they have.

ghost use Rattle.std.specs.Prelude.{◌≡◌, IfOk, length, map};
ghost use Rattle.std.specs.List.{range_with_len};
ghost use Rattle.vd_deal_needs.specs.Counted.{IsCountable, code_in};
ghost use Rattle.vd_deal_needs.specs.DealNeedsLawsNeeds.{counts};
ghost use Rattle.vd_hostcode.specs.Outcome.{CanRun, IsHeaded};
ghost use Rattle.vd_machine.specs.Machines.{list_of};
ghost use Rattle.vd_machine.specs.Wants.{count_of};
ghost use Rattle.vd_cmd_host.specs.Checking.{amounts_by, amounts_in, first_short, peer_amounts, short_among, short_deal, short_input, short_with};
ghost use Rattle.vd_cmd_host.specs.Serving.{lists_of};

use crate::loading::Loaded;
use std::alloc::{AllocError, Global};
use vd_base::{HostId, Items};
use vd_cmd_plan::HostStatus;
use vd_deal_needs::{ItemList, count};
use vd_execution::Instr;
use vd_tape::DealKind;

/// How many items of a list are taken at most, and how many there are.
#[derive(Clone, Copy, PartialEq, Eq)]
pub(crate) struct Amount {
    pub(crate) takes: u32,
    pub(crate) has: usize,
}

/// The amounts of the lists that a host shares with one other host.
#[derive(Clone, Copy, PartialEq, Eq)]
pub(crate) struct PeerAmounts {
    /// Products of words.
    pub(crate) muls: Amount,
    /// Products of bits.
    pub(crate) ands: Amount,
    /// Words that are sums and exclusive ors.
    pub(crate) pairs: Amount,
}

/// The amounts of all lists of a host.
#[derive(Drop)]
pub(crate) struct Amounts {
    pub(crate) inputs: Amount,
    /// Own random words.
    pub(crate) own: Amount,
    /// What is shared with each host, by the host's number. With itself a host shares nothing.
    pub(crate) shared: Items<PeerAmounts>,
}

/// How many items a host shares with a peer, by its lists in the order of its peers. With itself it shares none.
fn shared_count<T>(lists: &Items<Items<T>>, me: HostId, peer: HostId) -> usize
    ensures { result ≡ length (list_of lists.now me.0 peer.0) }
{
    if peer.0 == me.0 {
        return 0;
    }
    let place = if peer.0 < me.0 { peer.0 } else { peer.0 - 1 };
    match lists.as_slice().get(usize::from(place)) {
        Some(list) => list.as_slice().len(),
        None => 0,
    }
}

/// The amounts of what a host shares with a peer, where this is its code.
fn peer_amounts(
    alloc: Global,
    code: &[Instr],
    loaded: &Loaded,
    peer: HostId,
) -> Result<PeerAmounts, AllocError>
    requires { IsCountable code.now }
    ensures { IfOk result (λ amounts. amounts ≡ peer_amounts (counts (code_in code.now)) (count_of (lists_of loaded.now)) peer.0) }
{
    let deal = &loaded.dealt.deal;
    let muls = count(alloc, code, ItemList::Muls(peer))?;
    let ands = count(alloc, code, ItemList::Ands(peer))?;
    let pairs = count(alloc, code, ItemList::Pairs(peer))?;
    Ok(PeerAmounts {
        muls: Amount {
            takes: muls,
            has: shared_count(&deal.triples, deal.me, peer),
        },
        ands: Amount {
            takes: ands,
            has: shared_count(&deal.bits, deal.me, peer),
        },
        pairs: Amount {
            takes: pairs,
            has: shared_count(&deal.pairs, deal.me, peer),
        },
    })
}

/// The amounts of what a host shares with each of so many hosts.
fn all_shared(
    alloc: Global,
    hosts: u8,
    code: &[Instr],
    loaded: &Loaded,
) -> Result<Items<PeerAmounts>, AllocError>
    requires { IsCountable code.now }
    ensures { IfOk result (λ list. list ≡ map (peer_amounts (counts (code_in code.now)) (count_of (lists_of loaded.now)))
        (range_with_len 0 hosts)) }
{
    let mut list = Items::new(alloc);
    for number in 0..hosts {
        let amounts = peer_amounts(alloc, code, loaded, HostId(number))?;
        list.push(amounts)?;
    }
    Ok(list)
}

/// The amounts of all lists of one of so many hosts, where this is its code.
fn amounts_of(
    alloc: Global,
    hosts: u8,
    code: &[Instr],
    loaded: &Loaded,
) -> Result<Amounts, AllocError>
    requires { IsCountable code.now }
    ensures { IfOk result (λ amounts. amounts ≡ amounts_by hosts (counts (code_in code.now)) (count_of (lists_of loaded.now))) }
{
    let inputs = count(alloc, code, ItemList::Inputs)?;
    let own = count(alloc, code, ItemList::Own)?;
    let shared = all_shared(alloc, hosts, code, loaded)?;
    Ok(Amounts {
        inputs: Amount {
            takes: inputs,
            has: loaded.inputs.as_slice().len(),
        },
        own: Amount {
            takes: own,
            has: loaded.dealt.deal.own.as_slice().len(),
        },
        shared,
    })
}

/// The amounts of all lists of a host whose files were read.
pub(crate) fn amounts_in(alloc: Global, loaded: &Loaded) -> Result<Amounts, AllocError>
    requires heading { IsHeaded loaded.now.program }
    requires code { CanRun loaded.now.program }
    ensures { IfOk result (λ amounts. amounts ≡ amounts_in loaded.now) }
{
    let hosts = loaded.program.hosts.as_slice().len() as u8;
    amounts_of(alloc, hosts, loaded.program.code.as_slice(), loaded)
}

/// Where a host stops that takes all its inputs, if they are too few.
fn short_input(amount: Amount) -> Option<HostStatus>
    ensures { result ≡ short_input amount }
{
    if amount.has < amount.takes as usize {
        Some(HostStatus::ShortInput(amount.has, amount.has))
    } else {
        None
    }
}

/// Where a host stops that takes all items of this kind, if they are too few.
fn short_deal(kind: DealKind, amount: Amount) -> Option<HostStatus>
    ensures { result ≡ short_deal kind amount }
{
    if amount.has < amount.takes as usize {
        Some(HostStatus::ShortDeal(kind, amount.has, amount.has))
    } else {
        None
    }
}

/// The first kind that is short of those that are shared with a peer.
fn short_with(amounts: PeerAmounts) -> Option<HostStatus>
    ensures { result ≡ short_with amounts }
{
    if let Some(short) = short_deal(DealKind::Mul, amounts.muls) {
        return Some(short);
    }
    if let Some(short) = short_deal(DealKind::And, amounts.ands) {
        return Some(short);
    }
    short_deal(DealKind::Pair, amounts.pairs)
}

/// The first kind that is short of those that are shared with these hosts, in their order.
fn short_among(list: &[PeerAmounts]) -> Option<HostStatus>
    ensures { result ≡ short_among list.now }
{
    for amounts in list {
        if let Some(short) = short_with(*amounts) {
            return Some(short);
        }
    }
    None
}

/// The first list that is short.
pub(crate) fn first_short(amounts: &Amounts) -> Option<HostStatus>
    ensures { result ≡ first_short amounts.now }
{
    if let Some(short) = short_input(amounts.inputs) {
        return Some(short);
    }
    if let Some(short) = short_deal(DealKind::Own, amounts.own) {
        return Some(short);
    }
    short_among(amounts.shared.as_slice())
}
