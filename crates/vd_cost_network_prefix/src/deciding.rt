//! What is decided, kept from choice to choice with what all points and arcs come to.

ghost use Rattle.std.specs.Prelude.{◌≡◌, ◌==◌, ◌<◌, ℕ, [], IsTrue, false, if◌then◌else◌, length, slice_index_or, slice_set, true};
ghost use Rattle.vd_cost_network_prefix.specs.Reach.{AreDecidedBeside, CanDecide, ComeTo, arcs_at};
ghost use Rattle.vd_cost_network_prefix.specs.States.{AreSmallTables, as_states, parts_by, states_of};

use crate::made::NetworkTables;
use crate::reach::Reach;
use crate::states::point_state;
use crate::sums::{state_at, sum_of_parts_at};
use vd_base::{Items, Proto};
use vd_space::Problem;

/// What the first choices decide of each point, and what all points and arcs come to by that.
#[derive(Drop)]
pub(crate) struct Known {
    /// By point.
    pub states: Items<Option<u32>>,
    /// In parts.
    pub parts: i128,
    /// So many choices.
    pub told: usize,
}

/// A row of numbers, which is empty past the end.
fn row_at(rows: &[Items<usize>], row: usize) -> &[usize]
    ensures { result.now ≡ slice_index_or rows.now row [] }
{
    match rows.get(row) {
        Some(numbers) => numbers.as_slice(),
        None => &[],
    }
}

/// Whether these are the same.
fn are_same(first: Option<u32>, second: Option<u32>) -> bool
    ensures { result ≡ true → first ≡ second }
{
    match (first, second) {
        (None, None) => true,
        (Some(setting), Some(other)) => setting == other,
        _ => false,
    }
}

/// Whether the point stands so, if it is there at all.
fn stands(states: &[Option<u32>], point: usize, state: Option<u32>) -> bool
    ensures so { result ≡ true → point < length states.now → as_states states.now point ≡ state }
    ensures there { result ≡ false → point < length states.now }
{
    point >= states.len() || are_same(state_at(states, point), state)
}

/// Decides a point, whose arcs are those with these numbers. Answers what all points and arcs come to then, where they came to
/// so much before.
fn put(
    states: &mut Items<Option<u32>>,
    tables: &NetworkTables,
    arcs: &[usize],
    point: usize,
    state: Option<u32>,
    parts: i128,
) -> i128
    requires small { AreSmallTables tables.now }
    requires point { point < length states.old }
    requires arcs { arcs.now ≡ arcs_at tables.now.arcs point }
    requires parts { ComeTo tables.now states.old parts }
    ensures states { states.new ≡ slice_set states.old point state }
    ensures parts { result ≡ parts_by tables.now (as_states states.new) }
{
    let before = sum_of_parts_at(tables, states.as_slice(), point, arcs);
    states.set(point, state);
    let after = sum_of_parts_at(tables, states.as_slice(), point, arcs);
    parts + (after - before)
}

/// The same where the point is there and stands otherwise.
fn change(
    states: &mut Items<Option<u32>>,
    tables: &NetworkTables,
    arcs: &[usize],
    point: usize,
    state: Option<u32>,
    parts: i128,
) -> i128
    requires small { AreSmallTables tables.now }
    requires arcs { point < length states.old → arcs.now ≡ arcs_at tables.now.arcs point }
    requires parts { ComeTo tables.now states.old parts }
    ensures size { length states.new ≡ length states.old }
    ensures here { point < length states.old → as_states states.new point ≡ state }
    ensures others { (other : ℕ) → (other == point) ≡ false → as_states states.new other ≡ as_states states.old other }
    ensures parts { result ≡ parts_by tables.now (as_states states.new) }
{
    if stands(states.as_slice(), point, state) {
        parts
    } else {
        put(states, tables, arcs, point, state, parts)
    }
}

/// Decides anew the points that a slot may change, by a prefix by which all others are decided. Answers what all points and arcs
/// come to then, where they came to so much before.
fn decide_slot(
    states: &mut Items<Option<u32>>,
    problem: &Problem,
    list: &[Proto],
    tables: &NetworkTables,
    reach: &Reach,
    prefix: &[u32],
    slot: usize,
    parts: i128,
) -> i128
    requires tables { CanDecide problem.now list.now tables.now reach.now }
    requires slot { slot < length problem.now.slots }
    requires beside { AreDecidedBeside problem.now tables.now.switches prefix.now slot states.old }
    requires parts { ComeTo tables.now states.old parts }
    ensures states { states.new ≡ states_of problem.now prefix.now }
    ensures parts { result ≡ parts_by tables.now (as_states states.new) }
{
    let switches = tables.switches.as_slice();
    let changed = row_at(reach.points.as_slice(), slot);
    let mut sum = parts;
    for point in changed {
        let arcs = row_at(reach.arcs.as_slice(), *point);
        let state = point_state(problem, list, switches, prefix, *point);
        sum = change(states, tables, arcs, *point, state, sum);
    }
    sum
}

/// The same where that is wanted: by then all choices of the prefix are told.
pub(crate) fn decide_if(
    wanted: bool,
    known: &mut Known,
    problem: &Problem,
    list: &[Proto],
    tables: &NetworkTables,
    reach: &Reach,
    prefix: &[u32],
    slot: usize,
)
    requires tables { CanDecide problem.now list.now tables.now reach.now }
    requires slot { slot < length problem.now.slots }
    requires beside { IsTrue wanted → AreDecidedBeside problem.now tables.now.switches prefix.now slot known.old.states }
    requires parts { ComeTo tables.now known.old.states known.old.parts }
    ensures states { known.new.states ≡ (if wanted then states_of problem.now prefix.now else known.old.states) }
    ensures parts { known.new.parts ≡ parts_by tables.now (as_states known.new.states) }
    ensures told { known.new.told ≡ (if wanted then length prefix.now else known.old.told) }
{
    if !wanted {
        return;
    }
    known.parts = decide_slot(
        &mut known.states,
        problem,
        list,
        tables,
        reach,
        prefix,
        slot,
        known.parts,
    );
    known.told = prefix.len();
}
