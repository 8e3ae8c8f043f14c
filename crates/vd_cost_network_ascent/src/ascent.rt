//! The ascent over the points and arcs of a problem.

ghost use Rattle.std.specs.Prelude.{◌≡◌, IfOk, IfSome};
ghost use Rattle.vd_space.specs.Shifts.{AreArcShifts};
ghost use Rattle.vd_cost_network_prefix.specs.Tables.{AreNetworkTables};
ghost use Rattle.vd_space.specs.Labelled.{IsLabelled};
ghost use Rattle.vd_space.specs.Validity.{protocols as protocols_of};

use crate::climbing::Climb;
use crate::cost_network_shifts::{put_back, shifts_of};
use std::alloc::{AllocError, Global};
use vd_base::{Items, Proto};
use vd_cost_network_dual::Nets;
use vd_cost_network_prefix::NetworkTables;
use vd_protocol::protocols;
use vd_search_tree::Shift;
use vd_space::Problem;

/// Sweeps over the points and arcs of a problem, after which shifts of arcs come to much.
#[derive(Drop)]
pub struct Ascent {
    pub(crate) climb: Climb,
}

impl Ascent {
    /// After all sweeps, by the tables without shifts. None where a point has no setting left, since then no list is valid, and none
    /// where the lists that are met stay far from the bound, since then no few prefixes do.
    pub fn of(
        alloc: Global,
        problem: &Problem,
        tables: &NetworkTables,
    ) -> Result<Option<Ascent>, AllocError>
        requires { IsLabelled problem.now }
    {
        match Climb::of(alloc, problem, tables)? {
            Some(climb) => Ok(Some(Ascent { climb })),
            None => Ok(None),
        }
    }

    /// Shifts of arcs under which the bounds by arcs of the problem are greater than under most others, by the tables without
    /// shifts. There are none where an amount became too great for a shift, or shifts too many for a certificate, also without
    /// those that bring nothing.
    pub fn shifts(
        &self,
        alloc: Global,
        problem: &Problem,
        tables: &NetworkTables,
    ) -> Result<Option<Items<Shift>>, AllocError>
        requires { AreNetworkTables problem.now tables.now }
        ensures { IfOk result (λ found. IfSome found (AreArcShifts problem.now)) }
    {
        let mut nets = self.climb.lifted(alloc, tables.arcs.as_slice())?;
        let list = protocols(alloc, problem.hosts.as_slice().len() as u8)?;
        if let Some(shifts) = network_shifts(alloc, problem, tables, list.as_slice(), &nets)? {
            return Ok(Some(shifts));
        }
        put_back(alloc, tables.arcs.as_slice(), &mut nets)?;
        network_shifts(alloc, problem, tables, list.as_slice(), &nets)
    }
}

/// The shifts of the problem's arcs that come to these amounts, if shifts can have them.
fn network_shifts(
    alloc: Global,
    problem: &Problem,
    tables: &NetworkTables,
    list: &[Proto],
    nets: &Nets,
) -> Result<Option<Items<Shift>>, AllocError>
    requires tables { AreNetworkTables problem.now tables.now }
    requires list { list.now ≡ protocols_of problem.now }
    ensures { IfOk result (λ found. IfSome found (AreArcShifts problem.now)) }
{
    let count = tables.arcs.as_slice().len();
    shifts_of(alloc, count, list.len(), nets)
}
