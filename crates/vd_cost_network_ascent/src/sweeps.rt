//! The ascents by sweeps.

ghost use Rattle.std.specs.Prelude.{◌≤◌, IfOk, IfSome, length};
ghost use Rattle.std.specs.List.{All};
ghost use Rattle.vd_cost_network_bound.specs.Ascents.{IsBeyond};
ghost use Rattle.vd_cost_network_prefix.specs.Tables.{AreNetworkTables};
ghost use Rattle.vd_space.specs.Shifts.{AreArcShifts, AreUseShifts};

use crate::ascent::Ascent;
use crate::passing::walked;
use crate::space_ascent::plain_shifts;
use std::alloc::{AllocError, Global};
use vd_base::Items;
use vd_cost_network_bound::{ArcAscent, Ascents};
use vd_cost_network_prefix::{NetworkPath, NetworkTables};
use vd_search_tree::Shift;
use vd_space::Problem;

/// Ascents by sweeps over all uses and over all arcs.
#[derive(Clone, Copy, PartialEq, Eq)]
pub struct Sweeps;

impl Ascents for Sweeps {
    type Ascent = Ascent;

    ghost uses_give = { λ sweeps problem found. IfSome found (AreUseShifts problem) };

    ghost arcs_give = { λ sweeps problem found. IfSome found (AreArcShifts problem) };

    ghost walks_give = { λ sweeps problem most found. IfSome found (All (IsBeyond problem most)) };

    fn over_uses(
        &self,
        alloc: Global,
        problem: &Problem,
    ) -> Result<Option<Items<Shift>>, AllocError> {
        plain_shifts(alloc, problem)
    }

    fn over_arcs(
        &self,
        alloc: Global,
        problem: &Problem,
        without: &NetworkTables,
    ) -> Result<Option<ArcAscent<Ascent>>, AllocError> {
        let Some(ascent) = Ascent::of(alloc, problem, without)? else {
            return Ok(None);
        };
        match shifts_of_ascent(alloc, problem, without, &ascent) {
            Ok(Some(shifts)) => Ok(Some(ArcAscent { ascent, shifts })),
            Ok(None) => Ok(None),
            Err(fault) => Err(fault),
        }
    }

    fn over_prefixes(
        &self,
        alloc: Global,
        problem: &Problem,
        without: &NetworkTables,
        path: NetworkPath,
        ascent: Ascent,
        most: u32,
    ) -> Result<Option<Items<Items<u32>>>, AllocError> {
        walked(alloc, problem, without, path, ascent, most)
    }
}

/// The shifts of arcs that an ascent came to, where there are some.
fn shifts_of_ascent(
    alloc: Global,
    problem: &Problem,
    without: &NetworkTables,
    ascent: &Ascent,
) -> Result<Option<Items<Shift>>, AllocError>
    requires { AreNetworkTables problem.now without.now }
    ensures shifts { IfOk result (λ found. IfSome found (AreArcShifts problem.now)) }
    ensures some { IfOk result (λ found. IfSome found (λ shifts. 1 ≤ length shifts)) }
{
    let Some(shifts) = ascent.shifts(alloc, problem, without)? else {
        return Ok(None);
    };
    if shifts.as_slice().len() == 0 {
        return Ok(None);
    }
    Ok(Some(shifts))
}
