//! A problem as a network, for comparisons.
//!
//! A variable of the network is a slot, or a switch that says whether a host takes part in the branches of a guard; its values are
//! the settings at which it may be, in order. What the network costs at least is what the choice costs.

use crate::jobs::settings::Settings;
use std::alloc::Global;
use std::io::Write;
use vd_base::Items;
use vd_cost_network_prefix::{ArcTable, NetworkTables, PointTable};
use vd_cost_network_tables::network_tables;
use vd_space_api::Space;

/// No list costs so many units.
const TOP: i64 = 4_294_967_296;

/// A unit has so many parts.
const PARTS: i64 = 256;

/// Prints the network of a space.
pub(crate) fn print<W: Write>(alloc: Global, to: &mut W, space: &Space) -> anyhow::Result<()> {
    let problem = space.problem();
    let tables = network_tables(alloc, problem, Items::new(alloc))?;
    let settings = Settings::of(alloc, problem, space.list(), &tables)?;
    print_tables(to, &tables, &settings)
}

/// The network with these tables.
fn print_tables<W: Write>(
    to: &mut W,
    tables: &NetworkTables,
    settings: &Settings,
) -> anyhow::Result<()> {
    let points = tables.points.as_slice();
    let arcs = tables.arcs.as_slice();
    print_head(to, points.len(), arcs.len(), settings)?;
    for (point, table) in points.iter().enumerate() {
        print_point(to, point, table, settings)?;
    }
    for arc in arcs {
        print_arc(to, arc, settings)?;
    }
    Ok(())
}

/// The name, the numbers of variables, of their values and of cost functions, and what may not be; then how many values each
/// variable has. A point that can be nowhere has one value, at which it may not be.
fn print_head<W: Write>(
    to: &mut W,
    points: usize,
    arcs: usize,
    settings: &Settings,
) -> anyhow::Result<()> {
    let mut most = 1;
    for point in 0..points {
        most = settings.at(point).len().max(most);
    }
    let functions = points.saturating_add(arcs);
    writeln!(to, "viaduct {points} {most} {functions} {TOP}")?;
    for point in 0..points {
        writeln!(to, "{}", settings.at(point).len().max(1))?;
    }
    Ok(())
}

/// What a point costs alone.
fn print_point<W: Write>(
    to: &mut W,
    point: usize,
    table: &PointTable,
    settings: &Settings,
) -> anyhow::Result<()> {
    let settings = settings.at(point);
    writeln!(to, "1 {point} {TOP} {}", settings.len())?;
    for (value, setting) in settings.iter().enumerate() {
        if let Some(cost) = table.costs.as_slice().get(*setting) {
            writeln!(to, "{value} {}", *cost / PARTS)?;
        }
    }
    Ok(())
}

/// What an arc costs at these settings of its points, if they join.
fn cost_at(arc: &ArcTable, first: usize, second: usize) -> Option<i64> {
    let row = arc.cells.as_slice().get(first)?;
    *row.as_slice().get(second)?
}

/// How many pairs of settings join.
fn joining(arc: &ArcTable, firsts: &[usize], seconds: &[usize]) -> usize {
    let mut count: usize = 0;
    for first in firsts {
        for second in seconds {
            if cost_at(arc, *first, *second).is_some() {
                count = count.saturating_add(1);
            }
        }
    }
    count
}

/// What an arc costs.
fn print_arc<W: Write>(to: &mut W, arc: &ArcTable, settings: &Settings) -> anyhow::Result<()> {
    let firsts = settings.at(arc.first as usize);
    let seconds = settings.at(arc.second as usize);
    let count = joining(arc, firsts, seconds);
    writeln!(to, "2 {} {} {TOP} {count}", arc.first, arc.second)?;
    for (value, first) in firsts.iter().enumerate() {
        for (other, second) in seconds.iter().enumerate() {
            if let Some(cost) = cost_at(arc, *first, *second) {
                writeln!(to, "{value} {other} {}", cost / PARTS)?;
            }
        }
    }
    Ok(())
}
