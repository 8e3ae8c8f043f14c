//! What points and arcs cost at least by what is decided, and the sum of all.

ghost use Rattle.std.specs.Prelude.{◌≡◌, ◌+◌, ◌*◌, ◌<◌, ◌+ℤ◌, None, [], length, slice_index_or, unwrap_or};
ghost use Rattle.std.specs.List.{range_with_len};
ghost use Rattle.vd_space.specs.Network.{no_parts_left};
ghost use Rattle.vd_cost_network_prefix.specs.States.{AreSmallArcs, AreSmallPoints, AreSmallTables, IsSmallArc, IsSmallPoint, as_states, arc_at, arc_part, parts_by, point_at, point_part};
ghost use Rattle.vd_space_prefix.specs.Transfers.{IsWithin};
ghost use Rattle.vd_space.specs.Costs.{total};

use crate::made::{ArcTable, NetworkTables, PointTable};
use vd_base::Items;
use vd_space_prefix::amount_at;

/// A term with nothing left, in parts.
const NOTHING_LEFT: i64 = 256_000_000_000;

/// What is decided of a point.
pub(crate) fn state_at(states: &[Option<u32>], point: usize) -> Option<u32>
    ensures { result ≡ slice_index_or states.now point None }
{
    match states.get(point) {
        Some(state) => *state,
        None => None,
    }
}

/// What a point alone costs at least.
fn point_cost(table: &PointTable, state: Option<u32>) -> i64
    requires { IsSmallPoint table.now }
    ensures cost { result ≡ point_at table.now state }
    ensures within { IsWithin 1125899906842624 result }
{
    match state {
        Some(setting) => amount_at(table.costs.as_slice(), setting as usize),
        None => table.free,
    }
}

/// The number, or what a term with nothing left counts.
pub fn number_of(cost: Option<i64>) -> i64
    ensures { result ≡ unwrap_or cost no_parts_left }
{
    match cost {
        Some(number) => number,
        None => NOTHING_LEFT,
    }
}

/// What an arc costs where both its points are decided.
fn cell_cost(cells: &[Items<Option<i64>>], first: u32, second: u32) -> i64
    ensures { result ≡ unwrap_or (slice_index_or (slice_index_or cells.now first []) second None) no_parts_left }
{
    let Some(row) = cells.get(first as usize) else {
        return NOTHING_LEFT;
    };
    match row.as_slice().get(second as usize) {
        Some(cost) => number_of(*cost),
        None => NOTHING_LEFT,
    }
}

/// What an arc costs at least.
fn arc_cost(table: &ArcTable, first: Option<u32>, second: Option<u32>) -> i64
    requires { IsSmallArc table.now }
    ensures cost { result ≡ arc_at table.now first second }
    ensures within { IsWithin 1125899906842624 result }
{
    match (first, second) {
        (None, None) => table.both,
        (Some(setting), None) => amount_at(table.rows.as_slice(), setting as usize),
        (None, Some(setting)) => amount_at(table.columns.as_slice(), setting as usize),
        (Some(setting), Some(other)) => cell_cost(table.cells.as_slice(), setting, other),
    }
}

/// What the point with that number comes to.
fn part_of_point(tables: &[PointTable], states: &[Option<u32>], point: usize) -> i64
    requires { AreSmallPoints tables.now }
    ensures part { result ≡ point_part tables.now (as_states states.now) point }
    ensures within { IsWithin 1125899906842624 result }
{
    match tables.get(point) {
        Some(table) => point_cost(table, state_at(states, point)),
        None => 0,
    }
}

/// What all points come to, each alone.
fn sum_of_points(tables: &[PointTable], states: &[Option<u32>]) -> i128
    requires { AreSmallPoints tables.now }
    ensures sum { result ≡ total (point_part tables.now (as_states states.now)) (range_with_len 0 (length tables.now)) }
    ensures within { IsWithin (1125899906842624 * length tables.now) result }
    ensures few { length tables.now < 18446744073709551616 }
{
    let mut sum = 0;
    for point in 0..tables.len() {
        sum += i128::from(part_of_point(tables, states, point));
    }
    sum
}

/// What the arc with that number comes to.
fn part_of_arc(tables: &[ArcTable], states: &[Option<u32>], number: usize) -> i64
    requires { AreSmallArcs tables.now }
    ensures part { result ≡ arc_part tables.now (as_states states.now) number }
    ensures within { IsWithin 1125899906842624 result }
{
    match tables.get(number) {
        Some(table) => {
            let first = state_at(states, table.first as usize);
            let second = state_at(states, table.second as usize);
            arc_cost(table, first, second)
        }
        None => 0,
    }
}

/// What all arcs come to.
fn sum_of_arcs(tables: &[ArcTable], states: &[Option<u32>]) -> i128
    requires { AreSmallArcs tables.now }
    ensures sum { result ≡ total (arc_part tables.now (as_states states.now)) (range_with_len 0 (length tables.now)) }
    ensures within { IsWithin (1125899906842624 * length tables.now) result }
    ensures few { length tables.now < 18446744073709551616 }
{
    let mut sum = 0;
    for number in 0..tables.len() {
        sum += i128::from(part_of_arc(tables, states, number));
    }
    sum
}

/// What all points and arcs come to, by what is decided of each point.
pub(crate) fn sum_of_parts(tables: &NetworkTables, states: &[Option<u32>]) -> i128
    requires points { AreSmallPoints tables.now.points }
    requires arcs { AreSmallArcs tables.now.arcs }
    ensures sum { result ≡ parts_by tables.now (as_states states.now) }
    ensures small { AreSmallTables tables.now }
{
    sum_of_points(tables.points.as_slice(), states) + sum_of_arcs(tables.arcs.as_slice(), states)
}

/// What the arcs with these numbers come to.
fn sum_of_some(tables: &[ArcTable], states: &[Option<u32>], numbers: &[usize]) -> i128
    requires { AreSmallArcs tables.now }
    ensures sum { result ≡ total (arc_part tables.now (as_states states.now)) numbers.now }
    ensures within { IsWithin (1125899906842624 * length numbers.now) result }
{
    let mut sum = 0;
    for number in numbers {
        sum += i128::from(part_of_arc(tables, states, *number));
    }
    sum
}

/// What a point and the arcs with these numbers come to.
pub(crate) fn sum_of_parts_at(
    tables: &NetworkTables,
    states: &[Option<u32>],
    point: usize,
    numbers: &[usize],
) -> i128
    requires points { AreSmallPoints tables.now.points }
    requires arcs { AreSmallArcs tables.now.arcs }
    ensures sum { result ≡ point_part tables.now.points (as_states states.now) point
        +ℤ total (arc_part tables.now.arcs (as_states states.now)) numbers.now }
    ensures within { IsWithin (1125899906842624 * (length numbers.now + 1)) result }
{
    i128::from(part_of_point(tables.points.as_slice(), states, point))
        + sum_of_some(tables.arcs.as_slice(), states, numbers)
}
