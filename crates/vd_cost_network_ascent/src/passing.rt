//! The prefixes over which a search by arcs may pass, found by a walk.

ghost use Rattle.std.specs.Prelude.{◌≡◌, ◌==◌, IfOk, IfSome, is_some, length, nat_lt, true};
ghost use Rattle.std.specs.List.{All, list_all};
ghost use Rattle.vd_cost_network_ascent.specs.Walking.{made};
ghost use Rattle.vd_space.specs.Shifts.{AreArcShifts};
ghost use Rattle.vd_cost_network_bound.specs.Bounds.{IsBoundOf};
ghost use Rattle.vd_cost_network_prefix.specs.Tables.{AreNetworkTables};
ghost use Rattle.vd_cost_network_bound.specs.Ascents.{IsBeyond};

use crate::ascent::Ascent;
use crate::refutation::Refutation;
use crate::walk::Walk;
use std::alloc::{AllocError, Global};
use vd_base::Items;
use vd_cost_network_bound::NetworkBound;
use vd_cost_network_prefix::{NetworkPath, NetworkTables};
use vd_search_tree::Shift;
use vd_space::Problem;

/// At most so many prefixes are passed over.
const MOST_PASSED: u32 = 1024;

/// Whether each choice is one of so many.
fn are_among(choices: &[u32], count: usize) -> bool
    ensures { result ≡ list_all (λ choice. nat_lt choice count) choices.now }
{
    for choice in choices {
        if *choice as usize >= count {
            return false;
        }
    }
    true
}

/// Whether by the bound under these shifts of arcs each list that begins so costs more than that.
fn is_beyond(
    alloc: Global,
    problem: &Problem,
    bound: &NetworkBound,
    shifts: &[Shift],
    prefix: &[u32],
    most: u32,
) -> Result<bool, AllocError>
    requires bound { IsBoundOf problem.now bound.now }
    requires shifts { AreArcShifts problem.now shifts.now }
    ensures { IfOk result (λ beyond. beyond ≡ true → IsBeyond problem.now most prefix.now) }
{
    if !are_among(prefix, bound.list.as_slice().len()) {
        return Ok(false);
    }
    let least = bound.bound(alloc, problem, shifts, prefix)?;
    Ok(least > i64::from(most))
}

/// Notes the prefix of a refutation, if it is shown that each list that begins so costs more than that.
fn pass_over(
    alloc: Global,
    problem: &Problem,
    bound: &NetworkBound,
    found: Refutation,
    most: u32,
    passed: &mut Items<Items<u32>>,
) -> Result<(), AllocError>
    requires bound { IsBoundOf problem.now bound.now }
    requires shifts { AreArcShifts problem.now found.shifts }
    requires passed { All (IsBeyond problem.now most) passed.old }
    ensures { IfOk result (λ _. All (IsBeyond problem.now most) passed.new) }
{
    let Refutation { prefix, shifts } = found;
    let shifts = shifts.as_slice();
    if !is_beyond(alloc, problem, bound, shifts, prefix.as_slice(), most)? {
        return Ok(());
    }
    passed.push(prefix)
}

/// The prefixes that a walk passes over, as far as it is shown that each list that begins so costs more than that.
fn passed_over(
    alloc: Global,
    problem: &Problem,
    bound: &NetworkBound,
    walk: &mut Walk,
    most: u32,
) -> Result<Items<Items<u32>>, AllocError>
    requires bound { IsBoundOf problem.now bound.now }
    requires walk { walk.old.problem.now ≡ problem.now }
    ensures passed { IfOk result (All (IsBeyond problem.now most)) }
    ensures problem { walk.new.problem.now ≡ problem.now }
{
    let mut passed = Items::new(alloc);
    for _ in 0..MOST_PASSED {
        match walk.next(alloc)? {
            Some(found) => pass_over(alloc, problem, bound, found, most, &mut passed)?,
            None => break,
        }
    }
    Ok(passed)
}

/// The prefixes that a walk passes over, at that aim; nothing exactly where it does not come to a whole list.
fn passed_to_whole(
    alloc: Global,
    problem: &Problem,
    bound: &NetworkBound,
    walk: &mut Walk,
    most: u32,
) -> Result<Option<Items<Items<u32>>>, AllocError>
    requires bound { IsBoundOf problem.now bound.now }
    requires walk { walk.old.problem.now ≡ problem.now }
    ensures passed { IfOk result (λ found. IfSome found (All (IsBeyond problem.now most))) }
    ensures whole { IfOk result (λ found. is_some found ≡ (length (made walk.new.path) == length problem.now.slots)) }
{
    let passed = passed_over(alloc, problem, bound, walk, most)?;
    if !walk.is_whole() {
        return Ok(None);
    }
    Ok(Some(passed))
}

/// The prefixes that a walk behind an ascent passes over, at that aim; nothing where it does not come to a whole list.
pub(crate) fn walked(
    alloc: Global,
    problem: &Problem,
    without: &NetworkTables,
    path: NetworkPath,
    ascent: Ascent,
    most: u32,
) -> Result<Option<Items<Items<u32>>>, AllocError>
    requires without { AreNetworkTables problem.now without.now }
    requires path { path.problem.now ≡ problem.now }
    ensures { IfOk result (λ found. IfSome found (All (IsBeyond problem.now most))) }
{
    let mut walk = Walk::new(alloc, problem, without, path, ascent, most)?;
    match NetworkBound::new(alloc, problem) {
        Ok(bound) => passed_to_whole(alloc, problem, &bound, &mut walk, most),
        Err(fault) => Err(fault),
    }
}
