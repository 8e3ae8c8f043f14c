//! A path from the empty prefix down, whose prefixes are bounded by arcs too.

ghost use Rattle.std.specs.Prelude.{◌≡◌, [], take, IfOk};
ghost use Rattle.std.proofs.Props.{props};
ghost use Rattle.vd_space.specs.Network.{network_tree};
ghost use Rattle.vd_cost_network_prefix.specs.Reach.{IsReach};
ghost use Rattle.vd_cost_network_prefix.specs.States.{AreSmallTables, as_states, parts_by};
ghost use Rattle.vd_cost_network_prefix.specs.Tables.{AreNetworkTables, IsNetworkPath};
ghost use Rattle.vd_space_prefix.specs.Tables.{AreTables};
ghost use Rattle.vd_space.specs.Spaces.{IsProblem, tree_of};

use crate::deciding::{Known, decide_if};
use crate::made::NetworkTables;
use crate::reach::Reach;
use crate::states::{decide, undecided};
use crate::sums::sum_of_parts;
use crate::units::whole_units;
use std::alloc::{AllocError, Global};
use vd_base::Items;
use vd_search_tree::{Prefixes, no_choices};
use vd_space::Problem;
use vd_space_prefix::{Path, Tables};

/// A prefix of a problem's lists, whose bound is the greater of that without shifts and that by arcs.
#[derive(Drop)]
pub struct NetworkPath<'a> {
    problem: &'a Problem,
    /// Without shifts.
    tables: &'a Tables,
    by_arcs: &'a NetworkTables,
    /// The same prefix, with its bound without shifts.
    path: Path<'a>,
    /// The choices, of which the first are made.
    room: Items<u32>,
    /// What a choice may change.
    reach: Reach,
    /// What the first of them decide: all, where the prefix is valid.
    known: Known,
    /// How many choices are made.
    depth: usize,
    ghost holds: { IsProblem problem.now } by { Prim.hlevel props },
    ghost tabled: { AreTables problem.now tables.now } by { Prim.hlevel props },
    ghost joinable: { AreNetworkTables problem.now by_arcs.now } by { Prim.hlevel props },
    ghost plain: { tables.now.shifts ≡ [] } by { Prim.hlevel props },
    ghost same_tree: { tree_of path.problem.now path.tables.now.shifts ≡ tree_of problem.now [] } by { Prim.hlevel props },
    ghost same_prefix: { take path.depth path.room ≡ take depth room } by { Prim.hlevel props },
    ghost small: { AreSmallTables by_arcs.now } by { Prim.hlevel props },
    ghost reached: { IsReach problem.now by_arcs.now reach } by { Prim.hlevel props },
    ghost summed: { known.parts ≡ parts_by by_arcs.now (as_states known.states) } by { Prim.hlevel props },
    ghost kept: { IsNetworkPath problem.now room known.states depth known.told } by { Prim.hlevel props },
}

impl<'a> Prefixes for NetworkPath<'a> {
    ghost tree = { λ p. network_tree p.problem.now p.by_arcs.now.shifts };

    ghost path = { λ p. take p.depth p.room };

    fn slots(&self) -> u32 {
        self.path.slots()
    }

    fn choices(&self) -> u32 {
        self.path.choices()
    }

    fn depth(&self) -> u32 {
        self.path.depth()
    }

    fn is_valid(&self) -> bool {
        self.path.is_valid()
    }

    fn bound(&self) -> i64 {
        self.path.bound().max(whole_units(self.known.parts))
    }

    fn list(&self, alloc: Global) -> Result<Items<u32>, AllocError> {
        self.path.list(alloc)
    }

    fn enter(&mut self, choice: u32) {
        self.path.enter(choice);
        self.room.set(self.depth, choice);
        self.depth += 1;
        decide_if(
            self.path.is_valid(),
            &mut self.known,
            self.problem,
            self.tables.list.as_slice(),
            self.by_arcs,
            &self.reach,
            &self.room.as_slice()[..self.depth],
            self.depth - 1,
        );
    }

    fn leave(&mut self) {
        self.path.leave();
        self.depth -= 1;
        decide_if(
            self.known.told > self.depth,
            &mut self.known,
            self.problem,
            self.tables.list.as_slice(),
            self.by_arcs,
            &self.reach,
            &self.room.as_slice()[..self.depth],
            self.depth,
        );
    }
}

impl<'a> NetworkPath<'a> {
    /// The empty prefix, by tables without shifts and by those of arcs.
    pub fn new(
        alloc: Global,
        problem: &'a Problem,
        tables: &'a Tables,
        by_arcs: &'a NetworkTables,
    ) -> Result<NetworkPath<'a>, AllocError>
        requires tables { AreTables problem.now tables.now }
        requires plain { tables.now.shifts ≡ [] }
        requires by_arcs { AreNetworkTables problem.now by_arcs.now }
        ensures problem { IfOk result (λ path. path.problem.now ≡ problem.now) }
        ensures by_arcs { IfOk result (λ path. path.by_arcs.now ≡ by_arcs.now) }
        ensures empty { IfOk result (λ path. path.depth ≡ 0) }
    {
        let mut states = undecided(alloc, by_arcs.points.as_slice().len())?;
        let list = tables.list.as_slice();
        decide(&mut states, problem, list, by_arcs.switches.as_slice(), &[]);
        let parts = sum_of_parts(by_arcs, states.as_slice());
        Ok(NetworkPath {
            problem,
            tables,
            by_arcs,
            path: Path::new(alloc, problem, tables)?,
            room: no_choices(alloc, problem.slots.as_slice().len())?,
            reach: Reach::of(alloc, problem, by_arcs)?,
            known: Known {
                states,
                parts,
                told: 0,
            },
            depth: 0,
        })
    }
}
