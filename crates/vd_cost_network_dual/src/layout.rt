//! What sweeps go over.

use crate::arc_consistency::Domains;
use crate::nets::Nets;
use crate::network::Network;
use crate::numbers::settings_at;
use crate::order::Order;
use crate::sweeps::State;
use crate::tables::Tables;
use std::alloc::{AllocError, Global};
use vd_base::Items;
use vd_cost_network_prefix::NetworkTables;
use vd_space::Problem;

/// The points and arcs of a problem, in the order of sweeps, and at which settings each point may be.
#[derive(Drop)]
pub struct Layout {
    pub order: Order,
    pub network: Network,
    pub domains: Domains,
    /// How many settings each point has, with those that are not left.
    pub counts: Vec<usize>,
    /// Those that are left, by point.
    pub settings: Vec<Vec<usize>>,
}

impl Layout {
    /// By the tables without shifts, and by the places at which the slots may stand. None where a point has no setting left, since
    /// then no list is valid.
    pub fn of(
        alloc: Global,
        problem: &Problem,
        tables: &NetworkTables,
        candidates: &[Items<bool>],
    ) -> Result<Option<Layout>, AllocError> {
        let order = Order::of(alloc, problem, tables.switches.as_slice())?;
        let network = Network::of(alloc, tables.arcs.as_slice(), &order)?;
        let domains = Domains::of(alloc, problem, tables, candidates, &network, &order)?;
        let Some(settings) = domains.settings(alloc)? else {
            return Ok(None);
        };
        let counts = domains.counts(alloc)?;
        Ok(Some(Layout {
            order,
            network,
            domains,
            counts,
            settings,
        }))
    }

    /// The settings that are left for a point.
    pub fn settings_of(&self, point: usize) -> &[usize] {
        settings_at(self.settings.as_slice(), point)
    }

    /// No amounts.
    pub fn no_nets(&self, alloc: Global) -> Result<Nets, AllocError> {
        Nets::none(
            alloc,
            self.network.firsts.as_slice(),
            self.counts.as_slice(),
        )
    }

    /// What points and arcs cost at the settings that are left, where a step is at least so many bits more than a part.
    pub fn tables(
        &self,
        alloc: Global,
        by_arcs: &NetworkTables,
        least_bits: u32,
    ) -> Result<Tables, AllocError> {
        let settings = self.settings.as_slice();
        Tables::of(
            alloc,
            by_arcs,
            &self.network,
            &self.order,
            settings,
            least_bits,
        )
    }

    /// The state behind a sweep that way that came to these amounts, in parts.
    pub fn state(
        &self,
        alloc: Global,
        tables: &Tables,
        nets: &Nets,
        forward: bool,
    ) -> Result<State, AllocError> {
        let settings = self.settings.as_slice();
        State::from_nets(
            alloc,
            tables,
            &self.network,
            self.domains.most,
            settings,
            nets,
            forward,
        )
    }
}
