//! The tables by which a search by arcs goes.

ghost use Rattle.std.proofs.Props.{props};
ghost use Rattle.vd_cost_network_prefix.specs.Tables.{AreNetworkTables};
ghost use Rattle.vd_search_stages.specs.Network.{CanSelectByArcs};

use vd_cost_network_prefix::NetworkTables;
use vd_space::Problem;
use vd_space_prefix::Tables;

/// The tables of a problem by which a search by arcs goes.
#[derive(Drop)]
pub(crate) struct ArcTables<'a> {
    pub problem: &'a Problem,
    /// Without shifts.
    pub plain: &'a Tables,
    /// Of arcs, without shifts.
    pub without: &'a NetworkTables,
    /// Of arcs, under better shifts.
    pub by_arcs: &'a NetworkTables,
    ghost can: { CanSelectByArcs problem.now plain.now by_arcs.now } by { Prim.hlevel props },
    ghost unshifted: { AreNetworkTables problem.now without.now } by { Prim.hlevel props },
}
