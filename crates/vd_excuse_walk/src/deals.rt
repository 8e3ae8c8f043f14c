//! Hosts at their start, from deals, and deals at the end, from hosts.

ghost use Rattle.std.specs.Prelude.{◌≡◌, ◌∷◌, ◌++◌, [], IfOk, length, slice_index_or};
ghost use Rattle.vd_excuse_runs.specs.Runs.{side_at};
ghost use Rattle.vd_excuse_walk.specs.Claims.{stored_deal, stored_deals as all_stored};
ghost use Rattle.vd_excuse_walk.specs.Files.{dealt_sides};

use std::alloc::{AllocError, Global};
use vd_base::{Inputs, Items};
use vd_excuse_runs::{Run, Side};
use vd_tape::{Deal, Deals, PairItem, Triple};

/// The inputs of a host.
fn inputs_of(inputs: &Inputs, host: usize) -> &[u32]
    ensures { result.now ≡ slice_index_or inputs.now host [] }
{
    match inputs.as_slice().get(host) {
        Some(words) => words.as_slice(),
        None => &[],
    }
}

/// All hosts at the start of a run, with these inputs and deals.
pub(crate) fn run_of(alloc: Global, inputs: &Inputs, deals: &Deals) -> Result<Run, AllocError>
    ensures { IfOk result (λ run. run ≡ dealt_sides 0 inputs.now deals.now) }
{
    let deals = deals.as_slice();
    let mut sides = Vec::new(alloc);
    for host in 0..deals.len() {
        sides.push(Side::dealt(alloc, inputs_of(inputs, host), &deals[host])?)?;
    }
    Ok(Run::new(alloc, sides))
}

fn one_list(alloc: Global, items: &[Triple]) -> Result<Items<Items<Triple>>, AllocError>
    ensures { IfOk result (λ lists. lists ≡ items.now ∷ []) }
{
    let mut lists = Items::new(alloc);
    lists.push(Items::from_slice(alloc, items)?)?;
    Ok(lists)
}

fn one_pair_list(alloc: Global, items: &[PairItem]) -> Result<Items<Items<PairItem>>, AllocError>
    ensures { IfOk result (λ lists. lists ≡ items.now ∷ []) }
{
    let mut lists = Items::new(alloc);
    lists.push(Items::from_slice(alloc, items)?)?;
    Ok(lists)
}

/// A host's deal, as its side has it at the end.
fn stored_deal(alloc: Global, deal: &Deal, side: &Side) -> Result<Deal, AllocError>
    ensures { IfOk result (λ stored. stored ≡ stored_deal deal.now side.now) }
{
    let own = Items::from_slice(alloc, side.own.as_slice())?;
    let triples = one_list(alloc, side.triples.as_slice())?;
    let bits = one_list(alloc, side.bits.as_slice())?;
    let pairs = one_pair_list(alloc, side.pairs.as_slice())?;
    Ok(Deal {
        hosts: deal.hosts,
        me: deal.me,
        own,
        triples,
        bits,
        pairs,
    })
}

fn stored_at(alloc: Global, deal: &Deal, sides: &[Side], host: usize) -> Result<Deal, AllocError>
    ensures { IfOk result (λ stored. stored ≡ stored_deal deal.now (side_at sides.now host)) }
{
    match sides.get(host) {
        Some(side) => stored_deal(alloc, deal, side),
        None => stored_deal(alloc, deal, &Side::nothing(alloc)),
    }
}

/// All deals, as the hosts have them at the end.
pub(crate) fn stored_deals(
    alloc: Global,
    deals: &Deals,
    sides: &[Side],
) -> Result<Deals, AllocError>
    ensures { IfOk result (λ stored. stored ≡ all_stored 0 sides.now deals.now) }
{
    let deals = deals.as_slice();
    let mut stored = Items::new(alloc);
    for host in 0..deals.len() {
        stored.push(stored_at(alloc, &deals[host], sides, host)?)?;
    }
    Ok(stored)
}
