//! A walk down the lists of a problem, in order, that finds prefixes which seem to begin no list of little cost.

ghost use Rattle.std.specs.Prelude.{◌≡◌, ◌==◌, ◌<◌, ◌≤◌, IfOk, IfSome, length};
ghost use Rattle.vd_cost_network_ascent.specs.Walking.{IsRefutation, TestsLast, can_enter, entered, made, tree};
ghost use Rattle.vd_space.specs.Arcs.{arcs};
ghost use Rattle.vd_cost_network_prefix.specs.Tables.{AreNetworkTables};
ghost use Rattle.vd_space.specs.Labelled.{IsLabelled};
ghost use Rattle.vd_space.specs.Validity.{protocols as protocols_of};

use crate::ascent::Ascent;
use crate::cost_network_shifts::shifts_of;
use crate::refutation::Refutation;
use crate::walker::{Candidate, Verdict, Walker};
use std::alloc::{AllocError, Global};
use vd_cost_network_dual::UNIT;
use vd_cost_network_prefix::{NetworkPath, NetworkTables};
use vd_search_tree::Prefixes;
use vd_space::Problem;

/// What the test of the candidate that was chosen last came to.
#[derive(Drop)]
pub(crate) enum Tested {
    /// The choice stands.
    Open,
    /// It is taken back; with a refutation where shifts can have the amounts.
    Refuted(Option<Refutation>),
}

/// A walk over the slots of a problem: at each slot it passes over candidates in order, until one seems to begin a list that
/// costs at most the aim. Where none is left it goes back to the slot before.
#[derive(Drop)]
pub struct Walk<'a> {
    problem: &'a Problem,
    /// Without shifts.
    tables: &'a NetworkTables,
    path: NetworkPath<'a>,
    walker: Walker,
    /// The aim, in units.
    most: i64,
    /// The number of protocols.
    places: usize,
    ghost slots: { length path.problem.now.slots ≡ length problem.now.slots },
    ghost choices: { length (protocols_of path.problem.now) ≡ length (protocols_of problem.now) },
    ghost few: { places ≤ 256 },
    ghost placed: { places ≡ length (protocols_of problem.now) },
    ghost by_arcs: { length tables.now.arcs ≡ length (arcs problem.now) },
}

impl<'a> Walk<'a> {
    /// A walk to lists that cost at most so many units, behind an ascent, by the tables without shifts; and with the empty prefix
    /// by those of some shifts.
    pub fn new(
        alloc: Global,
        problem: &'a Problem,
        tables: &'a NetworkTables,
        path: NetworkPath<'a>,
        ascent: Ascent,
        most: u32,
    ) -> Result<Walk<'a>, AllocError>
        requires tables { AreNetworkTables problem.now tables.now }
        requires path { path.problem.now ≡ problem.now }
        ensures { IfOk result (λ walk. walk.problem.now ≡ problem.now) }
    {
        let most = i64::from(most);
        let walker = Walker::of(ascent.climb, alloc, most.saturating_mul(UNIT))?;
        let places = path.choices() as usize;
        Ok(Walk {
            problem,
            tables,
            path,
            walker,
            most,
            places,
        })
    }

    /// Goes on to the next candidate that is refuted; none at the end of the walk.
    pub fn next(&mut self, alloc: Global) -> Result<Option<Refutation>, AllocError>
        ensures problem { self.new.problem.now ≡ self.old.problem.now }
        ensures found { IfOk result (λ found. IfSome found (IsRefutation self.old.problem.now)) }
    {
        let slots = self.path.slots() as usize;
        for _ in 0..slots.saturating_mul(self.places) {
            let Some(candidate) = self.candidate() else {
                if self.go_back() {
                    continue;
                }
                return Ok(None);
            };
            if !self.enter(candidate.choice) {
                self.walker.pass_over(candidate);
            } else if let Tested::Refuted(Some(refutation)) = self.test(alloc, candidate)? {
                return Ok(Some(refutation));
            }
        }
        Ok(None)
    }

    /// Whether the walk has come to a whole list.
    pub fn is_whole(&self) -> bool
        ensures { result ≡ (length (made self.now.path) == length self.now.problem.now.slots) }
    {
        self.path.depth() == self.path.slots()
    }

    /// The next candidate of the slot behind the prefix, if one is left.
    fn candidate(&self) -> Option<Candidate> {
        let slot = self.path.depth();
        if slot < self.path.slots() {
            self.walker.candidate(slot)
        } else {
            None
        }
    }

    /// Takes the last choice back, where it was left open and no candidate of the slot behind it is left. Answers whether it did.
    fn go_back(&mut self) -> bool
        ensures { self.new.problem.now ≡ self.old.problem.now }
    {
        let depth = self.path.depth();
        if depth == 0 || depth >= self.path.slots() {
            return false;
        }
        if self.walker.go_back(depth - 1) {
            self.path.leave();
            return true;
        }
        false
    }

    /// Makes the choice, if there are such a slot and such a choice, and the prefix stays valid and its bound within the aim.
    /// Answers whether it did.
    fn enter(&mut self, choice: u32) -> bool
        ensures problem { self.new.problem.now ≡ self.old.problem.now }
        ensures most { self.new.most ≡ self.old.most }
        ensures tree { tree self.new.path ≡ tree self.old.path }
        ensures can { result ≡ can_enter (tree self.old.path) self.old.most (made self.old.path) choice }
        ensures path { made self.new.path ≡ entered result (made self.old.path) choice }
    {
        if self.path.depth() >= self.path.slots() || choice >= self.path.choices() {
            return false;
        }
        self.path.enter(choice);
        if self.path.is_valid() && self.path.bound() <= self.most {
            return true;
        }
        self.path.leave();
        false
    }

    /// Tests the candidate that was chosen last. Where it is refuted the choice is taken back; the refutation is answered if
    /// shifts can have the amounts.
    fn test(&mut self, alloc: Global, candidate: Candidate) -> Result<Tested, AllocError>
        requires { 0 < length (made self.old.path) }
        ensures problem { self.new.problem.now ≡ self.old.problem.now }
        ensures tested { IfOk result (TestsLast self.old.problem.now (made self.old.path) (made self.new.path)) }
    {
        match self.walker.test(alloc, candidate)? {
            Verdict::Open => {
                self.walker.go_on();
                Ok(Tested::Open)
            }
            Verdict::Refuted => {
                self.walker.lift(self.tables.arcs.as_slice(), candidate);
                let refutation = self.refutation(alloc)?;
                self.walker.take_back(candidate);
                self.path.leave();
                Ok(Tested::Refuted(refutation))
            }
        }
    }

    /// The prefix with the shifts so far, if shifts can have the amounts and there are some.
    fn refutation(&self, alloc: Global) -> Result<Option<Refutation>, AllocError>
        requires { 0 < length (made self.now.path) }
        ensures { IfOk result (λ found. IfSome found (IsRefutation self.now.problem.now)) }
    {
        let arcs = self.tables.arcs.as_slice();
        match shifts_of(alloc, arcs.len(), self.places, self.walker.nets())? {
            Some(shifts) => {
                if shifts.as_slice().len() == 0 {
                    return Ok(None);
                }
                let prefix = self.path.list(alloc)?;
                Ok(Some(Refutation { prefix, shifts }))
            }
            None => Ok(None),
        }
    }
}
