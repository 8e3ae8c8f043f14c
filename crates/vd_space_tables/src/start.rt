//! The sums of the empty prefix.

ghost use Rattle.std.specs.Prelude.{◌≡◌, ◌≤◌, ◌+ℤ◌, [], All, length, map, pos, slice_get};
ghost use Rattle.std.specs.Option.{option_map_or};
ghost use Rattle.vd_base.specs.Limits.{most_weights};
ghost use Rattle.vd_space_prefix.specs.Steps.{AreArcs};
ghost use Rattle.vd_space_prefix.specs.Transfers.{IsWithin};
ghost use Rattle.vd_space_prefix.specs.declared.transfers.Arc.{Arc as Arcs};
ghost use Rattle.vd_space.specs.Bounds.{least_one};
ghost use Rattle.vd_space.specs.Costs.{guards_total};
ghost use Rattle.vd_space.specs.Growth.{guard_sum};
ghost use Rattle.vd_space.specs.Sizes.{IsWithinLimits};
ghost use Rattle.vd_space.specs.WellFormed.{AreProtocols};
ghost use Rattle.vd_space_tables.specs.Charges.{IsCharge, telling_of};
ghost use Rattle.vd_space_tables.specs.Parts.{AreSmallMoved, AreSmallParts};
ghost use Rattle.vd_space_tables.specs.Start.{both_total, free_total};

use crate::charges::Charge;
use crate::made::{Charges, Moved};
use vd_base::Proto;
use vd_space::{Guard, Problem};
use vd_space_prefix::{Arc, Telling, guard_cost};

/// What the charges come to where no slot is decided.
fn free_sum(charges: &[Charge]) -> i64
    requires charges { All (IsCharge 1125899906842624) charges.now }
    requires few { length charges.now ≤ 2048 }
    ensures sum { result ≡ free_total charges.now }
    ensures within { IsWithin 2305843009213693952 result }
{
    let mut sum = 0;
    for charge in charges {
        sum += free_of(charge);
    }
    sum
}

fn free_of(charge: &Charge) -> i64
    requires { IsCharge 1125899906842624 charge.now }
    ensures free { result ≡ charge.now.free }
    ensures within { IsWithin 1125899906842624 result }
{
    charge.free
}

/// What the arcs come to where no slot is decided.
fn both_sum(arcs: &[Arc]) -> i64
    requires arcs { AreArcs arcs.now }
    requires few { length arcs.now ≤ 2048 }
    ensures sum { result ≡ both_total arcs.now }
    ensures within { IsWithin 2305843009213693952 result }
{
    let mut sum = 0;
    for number in 0..arcs.len() {
        sum += both_of(arcs, number);
    }
    sum
}

/// What the arc with that number comes to.
fn both_of(arcs: &[Arc], number: usize) -> i64
    requires arcs { AreArcs arcs.now }
    ensures both { result ≡ option_map_or (λ (arc : Arcs). arc.both) (slice_get arcs.now number) (pos 0) }
    ensures within { IsWithin 1125899906842624 result }
{
    match arcs.get(number) {
        Some(arc) => arc.both,
        None => 0,
    }
}

/// What it costs to tell the guards to the hosts that take part already where no slot is decided.
fn told_sum(problem: &Problem, list: &[Proto], tellings: &[Telling]) -> i64
    requires list { AreProtocols problem.now list.now }
    requires limits { IsWithinLimits problem.now }
    requires tellings { tellings.now ≡ map (telling_of problem.now) problem.now.guards }
    ensures sum { result ≡ guards_total problem.now (least_one problem.now []) [] }
    ensures within { IsWithin 8796093022208 result }
{
    let mut sum = 0;
    let guards = problem.guards.as_slice();
    for number in 0..guards.len() {
        sum += told_cost(problem, list, &guards[number], &tellings[number]);
    }
    sum
}

/// What it costs to tell the guard to the hosts that take part already where no slot is decided.
fn told_cost(problem: &Problem, list: &[Proto], guard: &Guard, telling: &Telling) -> i64
    requires list { AreProtocols problem.now list.now }
    requires weight { guard.now.weight ≤ most_weights }
    requires telling { telling.now ≡ telling_of problem.now guard.now }
    ensures cost { result ≡ guard_sum problem.now [] guard.now }
    ensures within { IsWithin 4294967296 result }
{
    guard_cost(problem, list, guard, telling, &[])
}

/// The terms of slots and uses where no slot is decided.
pub(crate) fn low_start(charges: &Charges, moved: &Moved) -> i64
    requires { AreSmallParts charges.now moved.now }
    ensures { result ≡ free_total charges.now.operations +ℤ free_total charges.now.outputs +ℤ both_total moved.now.arcs }
{
    free_sum(charges.operations.as_slice())
        + free_sum(charges.outputs.as_slice())
        + both_sum(moved.arcs.as_slice())
}

/// The same under shifts.
pub(crate) fn shifted_start(charges: &Charges, moved: &Moved) -> i64
    requires { AreSmallParts charges.now moved.now }
    ensures { result ≡ free_total charges.now.merged +ℤ both_total moved.now.shifted_arcs }
{
    free_sum(charges.merged.as_slice()) + both_sum(moved.shifted_arcs.as_slice())
}

/// The terms of indexes and guards where no slot is decided.
pub(crate) fn common_start(
    problem: &Problem,
    list: &[Proto],
    moved: &Moved,
    tellings: &[Telling],
) -> i64
    requires list { AreProtocols problem.now list.now }
    requires limits { IsWithinLimits problem.now }
    requires moved { AreSmallMoved moved.now }
    requires tellings { tellings.now ≡ map (telling_of problem.now) problem.now.guards }
    ensures { result ≡ both_total moved.now.index_arcs +ℤ guards_total problem.now (least_one problem.now []) [] }
{
    both_sum(moved.index_arcs.as_slice()) + told_sum(problem, list, tellings)
}
