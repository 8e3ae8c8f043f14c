//! Arcs of uses and of indexes.

ghost use Rattle.std.specs.Prelude.{◌≡◌, ◌≤◌, [], IfOk, length, map, slice_index_or};
ghost use Rattle.vd_base.specs.Limits.{most_certificate_shifts};
ghost use Rattle.vd_space_tables.specs.Arcs.{AreArcsOf, index_transfer, arc_between, use_transfer};
ghost use Rattle.vd_space_tables.specs.Prices.{candidates_of, moves_of, tells_of};
ghost use Rattle.vd_space_prefix.specs.Transfers.{ArePrices, IsTransfer};
ghost use Rattle.vd_space.specs.Bounds.{shifted_uses};
ghost use Rattle.vd_space.specs.Costs.{index_term, use_term};
ghost use Rattle.vd_space.specs.Validity.{protocols};
ghost use Rattle.vd_space.specs.WellFormed.{IsWellFormed};

use crate::space_terms::sums::{Rows, shift_sums};
use std::alloc::{AllocError, Global};
use vd_base::Items;
use vd_search_tree::Shift;
use vd_space::{Index, Problem, Use};
use vd_space_prefix::{Arc, Transfer};

/// The arcs of the uses.
pub fn use_arcs(
    alloc: Global,
    problem: &Problem,
    moves: &[Items<Option<u32>>],
    candidates: &[Items<bool>],
) -> Result<Items<Arc>, AllocError>
    requires well_formed { IsWellFormed problem.now }
    requires moves { moves.now ≡ moves_of (protocols problem.now) }
    requires candidates { candidates.now ≡ candidates_of problem.now }
    ensures { IfOk result (AreArcsOf problem.now moves.now (map (use_term problem.now) problem.now.uses)) }
{
    shifted_use_arcs(alloc, problem, moves, candidates, &[])
}

/// The arcs of the uses under shifts.
pub fn shifted_use_arcs(
    alloc: Global,
    problem: &Problem,
    moves: &[Items<Option<u32>>],
    candidates: &[Items<bool>],
    shifts: &[Shift],
) -> Result<Items<Arc>, AllocError>
    requires well_formed { IsWellFormed problem.now }
    requires moves { moves.now ≡ moves_of (protocols problem.now) }
    requires candidates { candidates.now ≡ candidates_of problem.now }
    requires few { length shifts.now ≤ most_certificate_shifts }
    ensures { IfOk result (AreArcsOf problem.now moves.now (shifted_uses problem.now shifts.now 0 problem.now.uses)) }
{
    let uses = problem.uses.as_slice();
    let from = shift_sums(alloc, uses, Rows::Firsts, uses.len(), moves.len(), shifts)?;
    let to = shift_sums(alloc, uses, Rows::Seconds, uses.len(), moves.len(), shifts)?;
    let mut arcs = Items::new(alloc);
    for (number, item) in uses.iter().enumerate() {
        let from = from[number].as_slice();
        let to = to[number].as_slice();
        arcs.push(use_arc(alloc, moves, candidates, item, from, to)?)?;
    }
    Ok(arcs)
}

/// The arcs of the indexes.
pub fn index_arcs(
    alloc: Global,
    problem: &Problem,
    tells: &[Items<Option<u32>>],
    candidates: &[Items<bool>],
) -> Result<Items<Arc>, AllocError>
    requires well_formed { IsWellFormed problem.now }
    requires tells { tells.now ≡ tells_of problem.now }
    requires candidates { candidates.now ≡ candidates_of problem.now }
    ensures { IfOk result (AreArcsOf problem.now tells.now (map (index_term problem.now) problem.now.indexes)) }
{
    let mut arcs = Items::new(alloc);
    for index in problem.indexes.as_slice() {
        arcs.push(index_arc(alloc, tells, candidates, index)?)?;
    }
    Ok(arcs)
}

/// The arc of a use, from whose cost shifts take these amounts by the place on either side.
fn use_arc(
    alloc: Global,
    moves: &[Items<Option<u32>>],
    candidates: &[Items<bool>],
    item: &Use,
    from: &[i64],
    to: &[i64],
) -> Result<Arc, AllocError>
    requires moves { ArePrices moves.now }
    requires transfer { IsTransfer (use_transfer item.now from.now to.now) }
    ensures { IfOk result (λ arc. arc ≡ arc_between moves.now (use_transfer item.now from.now to.now) candidates.now) }
{
    let transfer = Transfer {
        first: item.source.0 as u32,
        second: item.target.0 as u32,
        weight: item.weight,
        from: Items::from_slice(alloc, from)?,
        to: Items::from_slice(alloc, to)?,
    };
    arc(alloc, moves, candidates, transfer)
}

/// The arc of an index, which no shift touches.
fn index_arc(
    alloc: Global,
    tells: &[Items<Option<u32>>],
    candidates: &[Items<bool>],
    index: &Index,
) -> Result<Arc, AllocError>
    requires tells { ArePrices tells.now }
    requires transfer { IsTransfer (index_transfer index.now) }
    ensures { IfOk result (λ arc. arc ≡ arc_between tells.now (index_transfer index.now) candidates.now) }
{
    let transfer = Transfer {
        first: index.array.0 as u32,
        second: index.index.0 as u32,
        weight: index.weight,
        from: Items::new(alloc),
        to: Items::new(alloc),
    };
    arc(alloc, tells, candidates, transfer)
}

/// The arc of a transfer, where its slots may stand at their candidates.
fn arc(
    alloc: Global,
    prices: &[Items<Option<u32>>],
    candidates: &[Items<bool>],
    transfer: Transfer,
) -> Result<Arc, AllocError>
    requires prices { ArePrices prices.now }
    requires transfer { IsTransfer transfer }
    ensures { IfOk result (λ arc. arc ≡ arc_between prices.now transfer candidates.now) }
{
    let firsts = tests_at(candidates, transfer.first);
    let seconds = tests_at(candidates, transfer.second);
    Arc::of(alloc, prices, transfer, firsts, seconds)
}

/// The candidates of a slot.
fn tests_at(candidates: &[Items<bool>], slot: u32) -> &[bool]
    ensures { result.now ≡ slice_index_or candidates.now slot [] }
{
    match candidates.get(slot as usize) {
        Some(row) => row.as_slice(),
        None => &[],
    }
}
