//! The ascent over the slots and uses of a problem.

ghost use Rattle.std.specs.Prelude.{IfOk, IfSome};
ghost use Rattle.vd_space.specs.Shifts.{AreUseShifts};
ghost use Rattle.vd_space.specs.Labelled.{IsLabelled};
ghost use Rattle.vd_space.specs.Sizes.{IsWithinLimits};
ghost use Rattle.vd_space.specs.WellFormed.{AreProtocols};

use crate::cost_network_shifts::shifts_of;
use crate::space_ascent::climbing::climbed;
use crate::space_ascent::tables::plain_tables;
use std::alloc::{AllocError, Global};
use vd_base::{Items, Proto};
use vd_cost_network_dual::{Layout, Nets, UNIT_BITS};
use vd_cost_network_prefix::NetworkTables;
use vd_search_tree::Shift;
use vd_space::Problem;
use vd_space_tables::{all_protocols, candidates};

/// Shifts of uses under which the bounds of a problem are greater than under most others. There are none where a slot has no
/// protocol left, since then no list is valid; or where an amount became too great for a shift, or shifts too many for a certificate.
pub fn plain_shifts(alloc: Global, problem: &Problem) -> Result<Option<Items<Shift>>, AllocError>
    requires labelled { IsLabelled problem.now }
    requires limits { IsWithinLimits problem.now }
    ensures { IfOk result (λ found. IfSome found (AreUseShifts problem.now)) }
{
    let list = all_protocols(alloc, problem)?;
    let places = candidates(alloc, problem, list.as_slice())?;
    let by_uses = plain_tables(alloc, problem, list.as_slice(), places.as_slice())?;
    let Some(layout) = Layout::of(alloc, problem, &by_uses, places.as_slice())? else {
        return Ok(None);
    };
    let nets = nets_of(alloc, &layout, &by_uses)?;
    use_shifts(alloc, problem, list.as_slice(), &nets)
}

/// What shifts come to in whole units.
fn nets_of(alloc: Global, layout: &Layout, by_uses: &NetworkTables) -> Result<Nets, AllocError> {
    let mut nets = climbed(alloc, layout, by_uses)?;
    in_units(&mut nets.firsts);
    in_units(&mut nets.seconds);
    Ok(nets)
}

/// Amounts in parts, as whole units.
fn in_units(rows: &mut Vec<Vec<i64>>) {
    for row in rows {
        row_in_units(row);
    }
}

/// The same of a row.
fn row_in_units(row: &mut Vec<i64>) {
    for place in 0..row.len() {
        row[place] = row[place].wrapping_shr(UNIT_BITS);
    }
}

/// The shifts of the problem's uses that come to these amounts, if shifts can have them.
fn use_shifts(
    alloc: Global,
    problem: &Problem,
    list: &[Proto],
    nets: &Nets,
) -> Result<Option<Items<Shift>>, AllocError>
    requires { AreProtocols problem.now list.now }
    ensures { IfOk result (λ found. IfSome found (AreUseShifts problem.now)) }
{
    let count = problem.uses.as_slice().len();
    shifts_of(alloc, count, list.len(), nets)
}
