//! A path from the empty prefix down, with the sums of each valid prefix on it.

ghost use Rattle.std.specs.Prelude.{◌≡◌, ◌+◌, ◌<◌, false, length, take, slice_index_or, if◌then◌else◌, IfOk, MatchOption};
ghost use Rattle.std.proofs.Props.{props};
ghost use Rattle.vd_space_prefix.specs.declared.tables.Sums.{Sums as AllSums};
ghost use Rattle.vd_space_prefix.specs.Tables.{AreTables, IsNext, IsPath};
ghost use Rattle.vd_space.specs.Labelled.{IsLabelled};
ghost use Rattle.vd_space.specs.Validity.{is_valid, protocols};
ghost use Rattle.vd_space.specs.Spaces.{IsProblem, tree_of};

use crate::tables::{Sums, Tables, can_grow, grown};
use std::alloc::{AllocError, Global};
use vd_base::Items;
use vd_search_tree::{Prefixes, no_choices};
use vd_space::Problem;

/// A prefix of a problem's lists, which grows by a choice and gives it back. A further choice costs about as much as there
/// are uses, guards and indexes that name its slot.
#[derive(Drop)]
pub struct Path<'a> {
    problem: &'a Problem,
    tables: &'a Tables,
    /// The choices, of which the first are made.
    room: Items<u32>,
    /// The sums of the valid prefixes, by their lengths.
    sums: Items<Sums>,
    /// How many choices are made.
    depth: usize,
    /// How many prefixes are valid, from the empty one on.
    valid: usize,
    ghost holds: { IsProblem problem.now } by { Prim.hlevel props },
    ghost labelled: { IsLabelled problem.now } by { Prim.hlevel props },
    ghost tabled: { AreTables problem.now tables.now } by { Prim.hlevel props },
    ghost kept: { IsPath problem.now tables.now room sums depth valid } by { Prim.hlevel props },
}

impl<'a> Prefixes for Path<'a> {
    ghost tree = { λ p. tree_of p.problem.now p.tables.now.shifts };

    ghost path = { λ p. take p.depth p.room };

    fn slots(&self) -> u32 {
        self.problem.slots.as_slice().len() as u32
    }

    fn choices(&self) -> u32 {
        self.tables.list.as_slice().len() as u32
    }

    fn depth(&self) -> u32 {
        self.depth as u32
    }

    fn is_valid(&self) -> bool {
        self.valid > self.depth
    }

    fn bound(&self) -> i64 {
        let sums = &self.sums.as_slice()[self.depth];
        sums.low.max(sums.shifted) + sums.common
    }

    fn list(&self, alloc: Global) -> Result<Items<u32>, AllocError> {
        Items::from_slice(alloc, &self.room.as_slice()[..self.depth])
    }

    fn enter(&mut self, choice: u32) {
        self.room.set(self.depth, choice);
        let next = next_sums(
            self.problem,
            self.tables,
            self.sums.as_slice(),
            self.room.as_slice(),
            self.depth,
            self.valid,
        );
        if let Some(sums) = next {
            self.sums.set(self.depth + 1, sums);
            self.valid = self.depth + 2;
        }
        self.depth += 1;
    }

    fn leave(&mut self) {
        self.depth -= 1;
        self.valid = self.valid.min(self.depth + 1);
    }
}

impl<'a> Path<'a> {
    /// The empty prefix.
    pub fn new(
        alloc: Global,
        problem: &'a Problem,
        tables: &'a Tables,
    ) -> Result<Path<'a>, AllocError>
        requires { AreTables problem.now tables.now }
        ensures problem { IfOk result (λ path. path.problem.now ≡ problem.now) }
        ensures tables { IfOk result (λ path. path.tables.now ≡ tables.now) }
        ensures empty { IfOk result (λ path. path.depth ≡ 0) }
    {
        let slots = problem.slots.as_slice().len();
        let valid = one_if(problem.is_valid(tables.list.as_slice(), &[]));
        Ok(Path {
            problem,
            tables,
            room: no_choices(alloc, slots)?,
            sums: first_sums(alloc, tables.start, slots)?,
            depth: 0,
            valid,
        })
    }
}

/// The number of valid prefixes, of the empty one alone.
fn one_if(is_valid: bool) -> usize
    ensures { result ≡ (if is_valid then 1 else 0) }
{
    if is_valid { 1 } else { 0 }
}

/// The sums of the empty prefix, and room for those of so many longer ones.
fn first_sums(alloc: Global, start: Sums, slots: usize) -> Result<Items<Sums>, AllocError>
    ensures room { IfOk result (λ sums. length sums ≡ slots + 1) }
    ensures first { IfOk result (λ sums. (default : AllSums) → slice_index_or sums 0 default ≡ start) }
{
    let mut sums = Items::new(alloc);
    sums.push(start)?;
    for _ in 0..slots {
        sums.push(start)?;
    }
    Ok(sums)
}

/// The sums of the prefix with the choice behind it, where that is valid.
fn next_sums(
    problem: &Problem,
    tables: &Tables,
    sums: &[Sums],
    room: &[u32],
    depth: usize,
    valid: usize,
) -> Option<Sums>
    requires tables { AreTables problem.now tables.now }
    requires path { IsPath problem.now tables.now room.now sums.now depth valid }
    requires room { depth < length problem.now.slots }
    requires choice { slice_index_or room.now depth 0 < length (protocols problem.now) }
    ensures { MatchOption result (is_valid problem.now (take (depth + 1) room.now) ≡ false)
        (λ s. IsNext problem.now tables.now (take (depth + 1) room.now) s) }
{
    if valid <= depth {
        return None;
    }
    let before = &room[..depth];
    let after = &room[..depth + 1];
    let choice = room[depth];
    if !can_grow(problem, tables, choice, before, after) {
        return None;
    }
    Some(grown(problem, tables, &sums[depth], choice, before, after))
}
