//! The tables by which the bound of a prefix grows with a further choice.

ghost use Rattle.std.specs.Prelude.{◌≡◌, ◌<◌, length, true};
ghost use Rattle.vd_space_prefix.specs.Tables.{AreSumsOf, AreTables, IsStep, common_part, gain_at, low_part, naming_at, shifted_part};
ghost use Rattle.vd_space.specs.Growth.{extends};
ghost use Rattle.vd_space.specs.Validity.{is_valid};

use crate::guards::{Telling, growth_of_guards};
use crate::naming::{Naming, is_allowed};
use crate::steps::growth_of;
use crate::transfers::{Arc, amount_at};
use vd_base::{Items, Proto};
use vd_search_tree::Shift;
use vd_space::Problem;

/// The tables of a problem and shifts.
#[derive(Drop)]
pub struct Tables {
    /// The list of protocols.
    pub list: Items<Proto>,
    pub shifts: Items<Shift>,
    /// What moves cost, by the places of the protocols.
    pub moves: Items<Items<Option<u32>>>,
    /// What it costs to tell an index to the hosts of its array, by the places of the array and of the index.
    pub tells: Items<Items<Option<u32>>>,
    /// The arcs of the uses, without and under shifts, and those of the indexes.
    pub arcs: Items<Arc>,
    pub shifted_arcs: Items<Arc>,
    pub index_arcs: Items<Arc>,
    /// By guard.
    pub tellings: Items<Telling>,
    /// By slot and place: what the terms of that slot alone grow by when it is decided so, without and under shifts.
    pub gains: Items<Items<i64>>,
    pub shifted_gains: Items<Items<i64>>,
    /// By slot.
    pub naming: Items<Naming>,
    /// The sums of the empty prefix.
    pub start: Sums,
}

/// The parts of the bounds of a prefix: without shifts, under shifts, and what both have.
#[derive(Clone, Copy, PartialEq, Eq)]
pub struct Sums {
    pub low: i64,
    pub shifted: i64,
    pub common: i64,
}

/// What the terms of a slot alone grow by when it stands at a place.
fn gain_of(gains: &[Items<i64>], slot: usize, choice: u32) -> i64
    ensures { result ≡ gain_at gains.now slot choice }
{
    match gains.get(slot) {
        Some(row) => amount_at(row.as_slice(), choice as usize),
        None => 0,
    }
}

/// What names a slot.
fn naming_of(tables: &Tables, slot: usize) -> &Naming
    requires { slot < length tables.now.naming }
    ensures { result.now ≡ naming_at tables.now slot }
{
    &tables.naming.as_slice()[slot]
}

/// The first part of the bound of a prefix with a choice more.
fn grown_low(
    problem: &Problem,
    tables: &Tables,
    low: i64,
    choice: u32,
    before: &[u32],
    after: &[u32],
) -> i64
    requires tables { AreTables problem.now tables.now }
    requires step { IsStep problem.now before.now choice after.now }
    requires low { low ≡ low_part problem.now before.now }
    ensures { result ≡ low_part problem.now after.now }
{
    let slot = before.len();
    let naming = naming_of(tables, slot);
    let gain = gain_of(tables.gains.as_slice(), slot, choice);
    let growth = growth_of(
        tables.moves.as_slice(),
        tables.arcs.as_slice(),
        naming.uses.as_slice(),
        before,
        after,
    );
    low + (gain + growth)
}

/// The same under shifts.
fn grown_shifted(
    problem: &Problem,
    tables: &Tables,
    shifted: i64,
    choice: u32,
    before: &[u32],
    after: &[u32],
) -> i64
    requires tables { AreTables problem.now tables.now }
    requires step { IsStep problem.now before.now choice after.now }
    requires shifted { shifted ≡ shifted_part problem.now tables.now.shifts before.now }
    ensures { result ≡ shifted_part problem.now tables.now.shifts after.now }
{
    let slot = before.len();
    let naming = naming_of(tables, slot);
    let gain = gain_of(tables.shifted_gains.as_slice(), slot, choice);
    let growth = growth_of(
        tables.moves.as_slice(),
        tables.shifted_arcs.as_slice(),
        naming.uses.as_slice(),
        before,
        after,
    );
    shifted + (gain + growth)
}

/// What both have, with a choice more.
fn grown_common(
    problem: &Problem,
    tables: &Tables,
    common: i64,
    choice: u32,
    before: &[u32],
    after: &[u32],
) -> i64
    requires tables { AreTables problem.now tables.now }
    requires step { IsStep problem.now before.now choice after.now }
    requires common { common ≡ common_part problem.now before.now }
    ensures { result ≡ common_part problem.now after.now }
{
    let naming = naming_of(tables, before.len());
    let indexes = growth_of(
        tables.tells.as_slice(),
        tables.index_arcs.as_slice(),
        naming.indexes.as_slice(),
        before,
        after,
    );
    let guards = growth_of_guards(
        problem,
        tables.list.as_slice(),
        tables.tellings.as_slice(),
        naming.guards.as_slice(),
        choice,
        before,
        after,
    );
    common + (indexes + guards)
}

/// The sums of a prefix with a choice more.
pub fn grown(
    problem: &Problem,
    tables: &Tables,
    sums: &Sums,
    choice: u32,
    before: &[u32],
    after: &[u32],
) -> Sums
    requires tables { AreTables problem.now tables.now }
    requires step { IsStep problem.now before.now choice after.now }
    requires sums { AreSumsOf problem.now tables.now.shifts before.now sums.now }
    ensures { AreSumsOf problem.now tables.now.shifts after.now result }
{
    Sums {
        low: grown_low(problem, tables, sums.low, choice, before, after),
        shifted: grown_shifted(problem, tables, sums.shifted, choice, before, after),
        common: grown_common(problem, tables, sums.common, choice, before, after),
    }
}

/// Whether what names the slot allows the choice, by which a valid prefix grows.
pub(crate) fn can_grow(
    problem: &Problem,
    tables: &Tables,
    choice: u32,
    before: &[u32],
    after: &[u32],
) -> bool
    requires tables { AreTables problem.now tables.now }
    requires step { IsStep problem.now before.now choice after.now }
    requires valid { is_valid problem.now before.now ≡ true }
    ensures { result ≡ extends problem.now before.now choice }
{
    let naming = naming_of(tables, before.len());
    is_allowed(
        problem,
        tables.list.as_slice(),
        naming,
        choice,
        before,
        after,
    )
}
