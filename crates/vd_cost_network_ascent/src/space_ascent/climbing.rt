//! The levels of the climb over slots and uses: sweeps in ever greater parts of a unit, until parts are whole.

use std::alloc::{AllocError, Global};
use vd_cost_network_dual::{
    Ending, Layout, Lift, Lifting, Limits, Nets, Network, Observer, State, Tables, UNIT, UNIT_BITS,
    Witness,
};
use vd_cost_network_prefix::NetworkTables;

/// A level of the climb.
#[derive(Clone, Copy)]
struct Level {
    /// A step is 2 to this power of parts, or more where costs are great.
    bits: u32,
    /// So many sweeps are made at most.
    sweeps: u32,
}

impl Level {
    /// Each sweep visits all slots, and a list is read off behind each second sweep forward. Costs are whole units, so a list that
    /// costs less than a unit more than the bound costs least.
    fn limits(self) -> Limits {
        Limits {
            sweeps: self.sweeps,
            work: u64::MAX,
            patience: 12,
            visits_all: true,
            pause: 3,
            reads_forward: true,
            gap: UNIT,
            far_from: u64::MAX,
        }
    }
}

/// The first try, in whole units.
const FIRST: Level = Level {
    bits: UNIT_BITS,
    sweeps: 8,
};

/// From parts to whole units.
const LEVELS: [Level; 4] = [
    Level {
        bits: 0,
        sweeps: 64,
    },
    Level {
        bits: 4,
        sweeps: 16,
    },
    Level {
        bits: 6,
        sweeps: 16,
    },
    Level {
        bits: UNIT_BITS,
        sweeps: 32,
    },
];

/// 1,000,000 units, at each arc of what is lifted.
const LIFT: Lift = Lift {
    amount: 256_000_000,
    elsewhere: 256_000_000,
};

/// The amounts of the greatest bound, the last of equals.
#[derive(Drop)]
struct Greatest<'a> {
    /// The settings that are left for each point.
    settings: &'a [Vec<usize>],
    nets: Nets,
}

impl<'a> Greatest<'a> {
    fn into_nets(self) -> Nets {
        let Greatest { settings: _, nets } = self;
        nets
    }
}

impl<'a> Observer for Greatest<'a> {
    fn observe(&mut self, state: &State, tables: &Tables, network: &Network) {
        state.write_nets(tables, network, self.settings, &[], &mut self.nets);
    }
}

/// What shifts come to, in parts, where what slots have above their least is sent home and what is not left is lifted; by what
/// slots and uses cost.
pub(crate) fn climbed(
    alloc: Global,
    layout: &Layout,
    by_uses: &NetworkTables,
) -> Result<Nets, AllocError> {
    let tables = layout.tables(alloc, by_uses, UNIT_BITS)?;
    let nets = climbed_ahead(alloc, layout, by_uses, &tables)?;
    lifted(alloc, layout, by_uses, &tables, &nets)
}

/// What shifts come to at the end of all levels, in whole units, as a further sweep forward would go by it.
fn climbed_ahead(
    alloc: Global,
    layout: &Layout,
    by_uses: &NetworkTables,
    tables: &Tables,
) -> Result<Nets, AllocError> {
    let mut nets = climbed_by_levels(alloc, layout, by_uses)?;
    let ahead = layout.state(alloc, tables, &nets, true)?;
    let settings = layout.settings.as_slice();
    ahead.write_nets(tables, &layout.network, settings, &[], &mut nets);
    Ok(nets)
}

/// What shifts come to behind these amounts, where what slots have above their least is sent home and what is not left is lifted.
fn lifted(
    alloc: Global,
    layout: &Layout,
    by_uses: &NetworkTables,
    tables: &Tables,
    nets: &Nets,
) -> Result<Nets, AllocError> {
    let mut state = layout.state(alloc, tables, nets, false)?;
    state.give_to_nearest(tables, &layout.network);
    let mut lifting = Lifting::of(alloc, layout, LIFT)?;
    lifting.write(&state, tables, by_uses.arcs.as_slice(), layout, &[]);
    Ok(lifting.into_nets())
}

/// What shifts come to at the end of all levels, or of the first try where that shows that a list costs least.
fn climbed_by_levels(
    alloc: Global,
    layout: &Layout,
    by_uses: &NetworkTables,
) -> Result<Nets, AllocError> {
    let start = layout.no_nets(alloc)?;
    let (first, ending) = climbed_from(alloc, layout, by_uses, FIRST, start)?;
    if ending == Ending::Shown {
        return Ok(first);
    }
    let mut nets = layout.no_nets(alloc)?;
    for level in LEVELS {
        let (next, _) = climbed_from(alloc, layout, by_uses, level, nets)?;
        nets = next;
    }
    Ok(nets)
}

/// The same at the end of one level, from these amounts on; and why the level ended.
fn climbed_from(
    alloc: Global,
    layout: &Layout,
    by_uses: &NetworkTables,
    level: Level,
    start: Nets,
) -> Result<(Nets, Ending), AllocError> {
    let tables = layout.tables(alloc, by_uses, level.bits)?;
    let mut state = layout.state(alloc, &tables, &start, true)?;
    let mut kept = Greatest {
        settings: layout.settings.as_slice(),
        nets: start,
    };
    let mut witness = Witness::none(alloc);
    let ending = state.climb(
        alloc,
        &tables,
        &layout.network,
        level.limits(),
        &mut witness,
        &mut kept,
    )?;
    Ok((kept.into_nets(), ending))
}
