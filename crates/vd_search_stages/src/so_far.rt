//! Prefixes that are judged by what their slots decide, where some slot has no candidate.

ghost use Rattle.std.specs.Prelude.{◌≡◌, ◌≤◌, IfOk, length, take, true, pos};
ghost use Rattle.std.proofs.Props.{props};
ghost use Rattle.vd_search_stages.specs.SoFar.{so_far_under};
ghost use Rattle.vd_space.specs.Sizes.{IsWithinLimits};
ghost use Rattle.vd_space.specs.Validity.{is_bare};
ghost use Rattle.vd_space.specs.WellFormed.{AreProtocols};

use std::alloc::{AllocError, Global};
use vd_base::{Items, Proto};
use vd_search_tree::{Prefixes, no_choices};
use vd_space::Problem;

/// A prefix of the lists of a problem in which some slot has no candidate. No list is valid, so its bounds are nothing.
#[derive(Drop)]
pub(crate) struct Decided<'a> {
    pub problem: &'a Problem,
    list: &'a [Proto],
    /// The choices, of which the first are made.
    room: Items<u32>,
    /// How many choices are made.
    depth: usize,
    ghost listed: { AreProtocols problem.now list.now } by { Prim.hlevel props },
    ghost bare: { is_bare problem.now ≡ true } by { Prim.hlevel props },
    ghost limits: { IsWithinLimits problem.now } by { Prim.hlevel props },
    ghost size: { length room ≡ length problem.now.slots } by { Prim.hlevel props },
    ghost within: { depth ≤ length problem.now.slots } by { Prim.hlevel props },
}

impl<'a> Prefixes for Decided<'a> {
    ghost tree = { λ p. so_far_under p.problem.now (λ _. pos 0) };

    ghost path = { λ p. take p.depth p.room };

    fn slots(&self) -> u32 {
        self.problem.slots.as_slice().len() as u32
    }

    fn choices(&self) -> u32 {
        self.list.len() as u32
    }

    fn depth(&self) -> u32 {
        self.depth as u32
    }

    fn is_valid(&self) -> bool {
        self.problem
            .is_valid_so_far(self.list, &self.room.as_slice()[..self.depth])
    }

    fn bound(&self) -> i64 {
        0
    }

    fn list(&self, alloc: Global) -> Result<Items<u32>, AllocError> {
        Items::from_slice(alloc, &self.room.as_slice()[..self.depth])
    }

    fn enter(&mut self, choice: u32) {
        self.room.set(self.depth, choice);
        self.depth += 1;
    }

    fn leave(&mut self) {
        self.depth -= 1;
    }
}

impl<'a> Decided<'a> {
    /// The empty prefix.
    pub(crate) fn new(
        alloc: Global,
        problem: &'a Problem,
        list: &'a [Proto],
    ) -> Result<Decided<'a>, AllocError>
        requires list { AreProtocols problem.now list.now }
        requires bare { is_bare problem.now ≡ true }
        requires limits { IsWithinLimits problem.now }
        ensures problem { IfOk result (λ path. path.problem.now ≡ problem.now) }
        ensures empty { IfOk result (λ path. path.depth ≡ 0) }
    {
        let slots = problem.slots.as_slice().len();
        Ok(Decided {
            problem,
            list,
            room: no_choices(alloc, slots)?,
            depth: 0,
        })
    }
}
