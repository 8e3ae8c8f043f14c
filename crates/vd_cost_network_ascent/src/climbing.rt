//! The climb over the points and arcs of a problem.

ghost use Rattle.vd_space.specs.Labelled.{IsLabelled};

use crate::cost_network_dominance::Thinned;
use std::alloc::{AllocError, Global};
use vd_base::Items;
use vd_cost_network_dual::{
    Ending, Layout, Lift, Lifting, Limits, Nets, NoObserver, State, Tables, Witness,
};
use vd_cost_network_prefix::{ArcTable, NetworkTables};
use vd_protocol::protocols;
use vd_space::Problem;
use vd_space_tables::candidates;

/// At first so many sweeps are made at most, over all settings. Where a list is far from the bound even behind an eighth of their work,
/// a search by arcs would open too many prefixes.
const FIRST: Limits = Limits {
    sweeps: 256,
    work: 268_435_456,
    patience: 48,
    visits_all: false,
    pause: 3,
    reads_forward: false,
    gap: 1,
    far_from: 33_554_432,
};

/// Then so many over those settings that cost less than each other one of their point for some partners.
const THINNED: Limits = Limits {
    sweeps: 16_384,
    work: 268_435_456,
    patience: 400,
    visits_all: false,
    pause: 15,
    reads_forward: false,
    gap: 1,
    far_from: u64::MAX,
};

/// At last so many over all settings again.
const LAST: Limits = Limits {
    sweeps: 512,
    work: 402_653_184,
    patience: 48,
    visits_all: false,
    pause: 3,
    reads_forward: false,
    gap: 1,
    far_from: u64::MAX,
};

/// 65,536 units, so that some hundred lifts together still are an amount of 32 bits; at its other arcs a setting costs more only as
/// far as it would cost too little there.
const LIFT: Lift = Lift {
    amount: 16_777_216,
    elsewhere: 0,
};

/// The walk behind an ascent ends when so many prices of arcs were looked at in both, where other work counts as long as it
/// takes: both together take some three quarters of a second at most.
pub(crate) const WORK: u64 = 805_306_368;

/// The points and arcs of a problem, and what sweeps over them came to.
#[derive(Drop)]
pub struct Climb {
    pub layout: Layout,
    /// By the settings that are left.
    pub tables: Tables,
    pub state: State,
    /// The cheapest list that was met.
    pub witness: Witness,
}

impl Climb {
    /// After all sweeps over a problem, at whose end each point gave what it has above its least back to the points before it; by
    /// the tables without shifts; none where a point has no setting left, or the lists that are met stay far from the bound.
    pub fn of(
        alloc: Global,
        problem: &Problem,
        by_arcs: &NetworkTables,
    ) -> Result<Option<Climb>, AllocError>
        requires { IsLabelled problem.now }
    {
        let list = protocols(alloc, problem.hosts.as_slice().len() as u8)?;
        let places = candidates(alloc, problem, list.as_slice())?;
        Climb::from_candidates(alloc, problem, by_arcs, places.as_slice())
    }

    /// The same, where these are the places at which the slots may stand.
    fn from_candidates(
        alloc: Global,
        problem: &Problem,
        by_arcs: &NetworkTables,
        candidates: &[Items<bool>],
    ) -> Result<Option<Climb>, AllocError> {
        let Some(layout) = Layout::of(alloc, problem, by_arcs, candidates)? else {
            return Ok(None);
        };
        let tables = layout.tables(alloc, by_arcs, 0)?;
        let state = State::of(alloc, &tables, &layout.network, layout.domains.most)?;
        let mut climb = Climb {
            layout,
            tables,
            state,
            witness: Witness::none(alloc),
        };
        match climb.sweep(alloc, FIRST)? {
            Ending::Shown | Ending::Idle => {}
            Ending::Cut => climb.go_on(alloc, by_arcs)?,
            Ending::Far => return Ok(None),
        }
        climb
            .state
            .give_to_nearest(&climb.tables, &climb.layout.network);
        Ok(Some(climb))
    }

    /// Sweeps over all settings.
    fn sweep(&mut self, alloc: Global, limits: Limits) -> Result<Ending, AllocError> {
        let witness = &mut self.witness;
        let mut observer = NoObserver;
        self.state.climb(
            alloc,
            &self.tables,
            &self.layout.network,
            limits,
            witness,
            &mut observer,
        )
    }

    /// Goes on where the first sweeps did not do: over fewer settings, and then over all again.
    fn go_on(&mut self, alloc: Global, by_arcs: &NetworkTables) -> Result<(), AllocError> {
        let settings = self.layout.settings.as_slice();
        let thinned = Thinned::of(alloc, &self.tables, &self.layout.network, settings)?;
        self.state
            .sweep_backward(&self.tables, &self.layout.network);
        let nets = self.thinned_nets(alloc, by_arcs, &thinned)?;
        let work = self.state.work();
        self.state = self.layout.state(alloc, &self.tables, &nets, false)?;
        self.state.count(work);
        self.sweep(alloc, LAST)?;
        Ok(())
    }

    /// What the shifts come to by sweeps over fewer settings, where the others get shifts behind these.
    fn thinned_nets(
        &mut self,
        alloc: Global,
        by_arcs: &NetworkTables,
        thinned: &Thinned,
    ) -> Result<Nets, AllocError> {
        let mut nets = self.nets_of_few(alloc, by_arcs, thinned)?;
        let layout = &self.layout;
        let counts = layout.counts.as_slice();
        let arcs = by_arcs.arcs.as_slice();
        thinned.extend(alloc, arcs, &layout.network, counts, &mut nets)?;
        Ok(nets)
    }

    /// What the shifts come to by sweeps over fewer settings.
    fn nets_of_few(
        &mut self,
        alloc: Global,
        by_arcs: &NetworkTables,
        thinned: &Thinned,
    ) -> Result<Nets, AllocError> {
        let layout = &self.layout;
        let few = thinned.settings.as_slice();
        let tables = Tables::of(alloc, by_arcs, &layout.network, &layout.order, few, 0)?;
        let mut state = self.state_of_few(alloc, &tables, few)?;
        let mut witness = Witness::none(alloc);
        let mut observer = NoObserver;
        let network = &self.layout.network;
        state.climb(
            alloc,
            &tables,
            network,
            THINNED,
            &mut witness,
            &mut observer,
        )?;
        state.sweep_backward(&tables, network);
        self.state.count(state.work());
        state.nets(alloc, &tables, network, few, self.layout.counts.as_slice())
    }

    /// The state of sweeps over fewer settings, from what the shifts come to by all.
    fn state_of_few(
        &self,
        alloc: Global,
        tables: &Tables,
        few: &[Vec<usize>],
    ) -> Result<State, AllocError> {
        let layout = &self.layout;
        let network = &layout.network;
        let nets = self.state.nets(
            alloc,
            &self.tables,
            network,
            layout.settings.as_slice(),
            layout.counts.as_slice(),
        )?;
        let most = layout.domains.most;
        State::from_nets(alloc, tables, network, most, few, &nets, false)
    }

    /// What the shifts come to by all settings, where those that are not left are lifted.
    pub(crate) fn lifted(&self, alloc: Global, arcs: &[ArcTable]) -> Result<Nets, AllocError> {
        let mut lifting = self.lifting(alloc)?;
        self.lift(arcs, &[], &mut lifting);
        Ok(lifting.into_nets())
    }

    /// Room for what shifts come to by all settings.
    pub(crate) fn lifting(&self, alloc: Global) -> Result<Lifting, AllocError> {
        Lifting::of(alloc, &self.layout, LIFT)
    }

    /// Writes down what the shifts come to where points are fixed so, by all settings at which these may be.
    pub(crate) fn lift(&self, arcs: &[ArcTable], fixed: &[Option<usize>], lifting: &mut Lifting) {
        lifting.write(&self.state, &self.tables, arcs, &self.layout, fixed);
    }

    /// What it takes to have the amounts as shifts, and the bound of a prefix under these: so many prices are looked at.
    pub(crate) fn work_of_shifts(&self) -> u64 {
        let layout = &self.layout;
        let mut work: u64 = 0;
        for removal in &layout.domains.removed {
            let arcs = layout.network.of_point(removal.point).len() as u64;
            work = work.saturating_add(arcs.saturating_mul(layout.domains.most as u64));
        }
        for first in &layout.network.firsts {
            let here = self.tables.rows(*first).len() as u64;
            let there = self.tables.rows(first.turned()).len() as u64;
            work = work.saturating_add(here.saturating_mul(there));
        }
        work
    }
}
