//! The deal that explains other inputs to a host.

ghost use Rattle.std.specs.Prelude.{◌≡◌, ◌<◌, ◌≤◌, IfOk, length, slice_get};
ghost use Rattle.vd_excuse_runs.specs.Runs.{side_at};
ghost use Rattle.vd_excuse_walk.specs.Claims.{EndsWithin, HaveSameShape, either_takes_more, end_of, first_taken, side_takes_more, stored_deals as all_stored, walker_of};
ghost use Rattle.vd_excuse_walk.specs.Data.{all_both, data_walks};
ghost use Rattle.vd_excuse_walk.specs.Files.{AreOfTwo, file_tape, first_short};

use crate::deals::{run_of, stored_deals};
use crate::equivocation_laws::Step;
use crate::laws::walks_are_followed;
use crate::walker::Walker;
use std::alloc::{AllocError, Global};
use vd_base::{HostId, Inputs, Items};
use vd_excuse_runs::Side;
use vd_tape::{DealKind, Deals};

/// What going along both runs gives.
#[derive(Drop)]
pub struct Walked {
    /// The deals of both hosts by which the second inputs show the host that looks what the first show it.
    pub deals: Deals,
    /// The first kind of which the first run takes an item past the end of a list.
    pub short: Option<DealKind>,
}

/// Goes along the steps of a plan in both runs, and changes the items of the host that does not look as the second inputs ask: the
/// deal of both hosts by which the second inputs show the host what the first show it.
///
/// It is the deal that explains where, in the second run, no item is taken past the end of a list, and none stands there.
/// It fails only where memory runs out.
pub fn walk(
    alloc: Global,
    host: HostId,
    steps: &Items<Step>,
    first: &Inputs,
    second: &Inputs,
    deals: &Deals,
) -> Result<Walked, AllocError>
    requires host { host.0 < 2 }
    requires two { AreOfTwo deals.now }
    requires few { length second.now ≤ 2 }
    ensures short { let end = end_of host steps.now first.now second.now deals.now in
        IfOk result (λ out. out.short ≡ first_short deals.now end.first) }
    ensures same { IfOk result (λ out. HaveSameShape deals.now out.deals) }
    ensures kept { IfOk result (λ out. slice_get out.deals host.0 ≡ slice_get deals.now host.0) }
    ensures deal { let end = end_of host steps.now first.now second.now deals.now in
        IfOk result (λ out. EndsWithin deals.now end → file_tape second.now out.deals ≡ end.deal) }
{
    walks_are_followed();
    let walker = walk_both(alloc, host, steps.as_slice(), first, second, deals)?;
    read_off(alloc, walker, deals)
}

/// What is read off both runs at their ends.
fn read_off(alloc: Global, walker: Walker, deals: &Deals) -> Result<Walked, AllocError>
    ensures short { IfOk result (λ out. out.short ≡ first_taken walker.first) }
    ensures deals { IfOk result (λ out. out.deals ≡ all_stored 0 walker.second deals.now) }
{
    let Walker {
        host: _,
        first,
        second,
    } = walker;
    let sides = first.into_sides();
    let short = first_taken(sides.as_slice());
    let sides = second.into_sides();
    let deals = stored_deals(alloc, deals, sides.as_slice())?;
    Ok(Walked { deals, short })
}

/// Whether a host took an item of that kind past the end of its list.
fn side_takes_more(side: &Side, kind: DealKind) -> bool
    ensures { result ≡ side_takes_more kind side.now }
{
    match kind {
        DealKind::Own => side.own.as_slice().len() < side.taken.own,
        DealKind::Mul => side.triples.as_slice().len() < side.taken.triples,
        DealKind::And => side.bits.as_slice().len() < side.taken.bits,
        DealKind::Pair => side.pairs.as_slice().len() < side.taken.pairs,
    }
}

fn takes_more(sides: &[Side], host: usize, kind: DealKind) -> bool
    ensures { result ≡ side_takes_more kind (side_at sides.now host) }
{
    match sides.get(host) {
        Some(side) => side_takes_more(side, kind),
        None => false,
    }
}

fn either_takes_more(sides: &[Side], kind: DealKind) -> bool
    ensures { result ≡ either_takes_more sides.now kind }
{
    takes_more(sides, 0, kind) || takes_more(sides, 1, kind)
}

/// The first kind of which one of the two hosts took an item past the end of a list.
fn first_taken(sides: &[Side]) -> Option<DealKind>
    ensures { result ≡ first_taken sides.now }
{
    if either_takes_more(sides, DealKind::Own) {
        Some(DealKind::Own)
    } else if either_takes_more(sides, DealKind::Mul) {
        Some(DealKind::Mul)
    } else if either_takes_more(sides, DealKind::And) {
        Some(DealKind::And)
    } else if either_takes_more(sides, DealKind::Pair) {
        Some(DealKind::Pair)
    } else {
        None
    }
}

fn walk_both(
    alloc: Global,
    host: HostId,
    steps: &[Step],
    first: &Inputs,
    second: &Inputs,
    deals: &Deals,
) -> Result<Walker, AllocError>
    ensures { IfOk result (λ walker. walker ≡ all_both (data_walks steps.now) (walker_of host first.now second.now deals.now)) }
{
    let first = run_of(alloc, first, deals)?;
    let second = run_of(alloc, second, deals)?;
    let mut walker = Walker {
        host,
        first,
        second,
    };
    walker.steps(steps)?;
    Ok(walker)
}
