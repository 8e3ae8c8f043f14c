//! The tables of a problem and shifts, put together.

ghost use Rattle.std.specs.Prelude.{◌≡◌, ◌≤◌, IfOk, length};
ghost use Rattle.vd_base.specs.Limits.{most_certificate_shifts};
ghost use Rattle.vd_space_tables.specs.Prices.{candidates_of};
ghost use Rattle.vd_space_prefix.specs.Tables.{AreTables};
ghost use Rattle.vd_space.specs.Labelled.{IsLabelled};
ghost use Rattle.vd_space.specs.WellFormed.{AreProtocols, IsWellFormed};
ghost use Rattle.vd_space_tables.specs.Charges.{AreCandidates};

use crate::parts::{kept_parts, moved_values, slot_charges};
use crate::space_terms::candidates;
use std::alloc::{AllocError, Global};
use vd_base::{Items, Proto};
use vd_protocol::protocols;
use vd_search_tree::Shift;
use vd_space::Problem;
use vd_space_prefix::Tables;

/// The tables of a problem and shifts.
pub fn tables(alloc: Global, problem: &Problem, shifts: Items<Shift>) -> Result<Tables, AllocError>
    requires well_formed { IsWellFormed problem.now }
    requires few { length shifts ≤ most_certificate_shifts }
    ensures tables { IfOk result (AreTables problem.now) }
    ensures shifts { IfOk result (λ tables. tables.shifts ≡ shifts) }
{
    let list = all_protocols(alloc, problem)?;
    let tests = all_candidates(alloc, problem, list.as_slice())?;
    let moved = moved_values(
        alloc,
        problem,
        list.as_slice(),
        tests.as_slice(),
        shifts.as_slice(),
    )?;
    let charges = slot_charges(
        alloc,
        problem,
        list.as_slice(),
        tests.as_slice(),
        shifts.as_slice(),
    )?;
    let kept = kept_parts(
        alloc,
        problem,
        list.as_slice(),
        tests.as_slice(),
        &charges,
        &moved,
    )?;
    Ok(Tables {
        list,
        shifts,
        moves: moved.moves,
        tells: moved.tells,
        arcs: moved.arcs,
        shifted_arcs: moved.shifted_arcs,
        index_arcs: moved.index_arcs,
        tellings: kept.tellings,
        gains: kept.gains,
        shifted_gains: kept.shifted_gains,
        naming: kept.naming,
        start: kept.start,
    })
}

/// All protocols over the hosts of a problem, in order.
pub fn all_protocols(alloc: Global, problem: &Problem) -> Result<Items<Proto>, AllocError>
    requires { IsLabelled problem.now }
    ensures { IfOk result (AreProtocols problem.now) }
{
    protocols(alloc, problem.hosts.as_slice().len() as u8)
}

/// Which places of the list are candidates, by slot.
fn all_candidates(
    alloc: Global,
    problem: &Problem,
    list: &[Proto],
) -> Result<Items<Items<bool>>, AllocError>
    requires { AreProtocols problem.now list.now }
    ensures candidates { IfOk result (λ candidates. candidates ≡ candidates_of problem.now) }
    ensures rows { IfOk result (AreCandidates problem.now) }
{
    candidates(alloc, problem, list)
}
