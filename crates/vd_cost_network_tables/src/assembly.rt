//! The tables of arcs, put together.

ghost use Rattle.std.specs.Prelude.{◌≡◌, ◌≤◌, ◌∷◌, ◌++◌, [], IfOk, length, map, replicate, slice_index_or, true};
ghost use Rattle.vd_base.specs.Limits.{most_certificate_shifts};
ghost use Rattle.vd_space.specs.Arcs.{arcs};
ghost use Rattle.vd_cost_network_prefix.specs.States.{AreSmallArcs};
ghost use Rattle.vd_cost_network_prefix.specs.Tables.{AreNetworkTables};
ghost use Rattle.vd_cost_network_tables.specs.Tables.{arc_tables_of, raw_arc, switch_tables_from};
ghost use Rattle.vd_space.specs.WellFormed.{AreProtocols, IsWellFormed};
ghost use Rattle.vd_cost_network_tables.specs.Sources.{AreSettingsOf};

use crate::arcs::raw_arcs;
use crate::cells::{arc_table, shifted};
use crate::points::point_tables;
use crate::raw::RawArc;
use crate::switches::switch_tables;
use std::alloc::{AllocError, Global};
use vd_base::{Items, Proto};
use vd_cost_network_prefix::{ArcTable, NetworkTables, SwitchTable};
use vd_search_tree::Shift;
use vd_space::Problem;
use vd_space_tables::{Rows, all_protocols, candidates, index_prices, move_prices, shift_sums};

/// Which settings each point may be at: a slot at its candidates, and a switch off or on.
pub fn settings(
    alloc: Global,
    candidates: Items<Items<bool>>,
    switches: usize,
) -> Result<Items<Items<bool>>, AllocError>
    ensures { IfOk result (λ settings. settings ≡ candidates ++ replicate switches (true ∷ true ∷ [])) }
{
    let mut settings = candidates;
    for _ in 0..switches {
        settings.push(Items::from_slice(alloc, &[true, true])?)?;
    }
    Ok(settings)
}

/// The settings at which a point may be.
fn tests_at(settings: &[Items<bool>], point: u32) -> &[bool]
    ensures { result.now ≡ slice_index_or settings.now point [] }
{
    match settings.get(point as usize) {
        Some(row) => row.as_slice(),
        None => &[],
    }
}

/// The tables of all arcs, under shifts.
fn arc_tables(
    alloc: Global,
    problem: &Problem,
    raws: &[RawArc],
    settings: &[Items<bool>],
    most: usize,
    shifts: &[Shift],
) -> Result<Items<ArcTable>, AllocError>
    requires well_formed { IsWellFormed problem.now }
    requires raws { raws.now ≡ map (raw_arc problem.now) (arcs problem.now) }
    requires settings { AreSettingsOf problem.now settings.now most }
    requires few { length shifts.now ≤ most_certificate_shifts }
    ensures tables { IfOk result (λ tables. tables ≡ arc_tables_of problem.now shifts.now) }
    ensures small { IfOk result AreSmallArcs }
{
    let from = shift_sums(alloc, raws, Rows::Firsts, raws.len(), most, shifts)?;
    let to = shift_sums(alloc, raws, Rows::Seconds, raws.len(), most, shifts)?;
    let mut tables = Items::new(alloc);
    for number in 0..raws.len() {
        let raw = &raws[number];
        let from = from[number].as_slice();
        let to = to[number].as_slice();
        let cells = shifted(alloc, raw.cells.as_slice(), from, to)?;
        let firsts = tests_at(settings, raw.first);
        let seconds = tests_at(settings, raw.second);
        tables.push(arc_table(alloc, (raw.first, raw.second), firsts, seconds, cells)?)?;
    }
    Ok(tables)
}

/// All arcs, without shifts.
pub fn all_arcs(
    alloc: Global,
    problem: &Problem,
    list: &[Proto],
    switches: &[SwitchTable],
) -> Result<Items<RawArc>, AllocError>
    requires well_formed { IsWellFormed problem.now }
    requires list { AreProtocols problem.now list.now }
    requires switches { switches.now ≡ switch_tables_from problem.now 0 problem.now.guards }
    ensures { IfOk result (λ raws. raws ≡ map (raw_arc problem.now) (arcs problem.now)) }
{
    let moves = move_prices(alloc, list)?;
    let tells = index_prices(alloc, problem, list)?;
    raw_arcs(
        alloc,
        problem,
        list,
        moves.as_slice(),
        tells.as_slice(),
        switches,
    )
}

/// As many settings as each point has at most.
pub fn most_settings(list: &[Proto]) -> usize
    ensures places { length list.now ≤ result }
    ensures switches { 2 ≤ result }
{
    list.len().max(2)
}

/// The tables of a problem and of shifts that name its arcs.
pub fn network_tables(
    alloc: Global,
    problem: &Problem,
    shifts: Items<Shift>,
) -> Result<NetworkTables, AllocError>
    requires well_formed { IsWellFormed problem.now }
    requires few { length shifts ≤ most_certificate_shifts }
    ensures tables { IfOk result (AreNetworkTables problem.now) }
    ensures shifts { IfOk result (λ tables. tables.shifts ≡ shifts) }
{
    let list = all_protocols(alloc, problem)?;
    let list = list.as_slice();
    let candidates = candidates(alloc, problem, list)?;
    let switches = switch_tables(alloc, problem, list, candidates.as_slice())?;
    let raws = all_arcs(alloc, problem, list, switches.as_slice())?;
    let settings = settings(alloc, candidates, switches.as_slice().len())?;
    let most = most_settings(list);
    let arcs = arc_tables(
        alloc,
        problem,
        raws.as_slice(),
        settings.as_slice(),
        most,
        shifts.as_slice(),
    )?;
    let points = point_tables(
        alloc,
        problem,
        list,
        switches.as_slice(),
        raws.as_slice(),
        settings.as_slice(),
        most,
        shifts.as_slice(),
    )?;
    Ok(NetworkTables {
        shifts,
        points,
        arcs,
        switches,
    })
}
