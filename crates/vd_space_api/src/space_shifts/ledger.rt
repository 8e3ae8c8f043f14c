//! The shifts so far, and what each slot must cost after them.

ghost use Rattle.std.specs.Prelude.{◌≡◌, ◌++◌, ◌<◌, ◌≤◌, length, map, IfOk, OnOk};
ghost use Rattle.std.specs.List.{AllByRecursion};
ghost use Rattle.vd_base.specs.Limits.{most_certificate_shifts};
ghost use Rattle.vd_space.specs.Usual.{usual};
ghost use Rattle.vd_space.specs.WellFormed.{AreProtocols, IsWellFormed};
ghost use Rattle.vd_space_api.specs.Ledger.{AreSmall, IsHandedOn, IsSmallShift, made, one_shift};
ghost use Rattle.vd_space_api.specs.Terms.{candidates_of};

use crate::space_shifts::rows::{amounts, emptied, givens, raised};
use crate::space_shifts::terms::{all_candidates, all_terms};
use std::alloc::{AllocError, Global};
use vd_base::{Items, Proto};
use vd_protocol::protocols;
use vd_search_tree::Shift;
use vd_space::{Problem, Use};

/// The shifts so far, and by slot and place what the slot must cost after them.
#[derive(Drop)]
pub(crate) struct Ledger {
    pub terms: Items<Items<Option<u64>>>,
    pub shifts: Items<Shift>,
}

/// Adds a shift of the amount, where that is above 0.
fn push_shift(
    shifts: &mut Items<Shift>,
    at: u32,
    side: u8,
    add: bool,
    place: usize,
    amount: u64,
) -> Result<(), AllocError>
    requires place { place < 256 }
    requires amount { amount < 4294967296 }
    ensures { OnOk result (shifts.new ≡ shifts.old ++ one_shift at side add place amount) }
{
    if amount == 0 {
        return Ok(());
    }
    shifts.push(Shift {
        at,
        side,
        proto: place as u8,
        add,
        amount: amount as u32,
    })
}

/// Adds a shift of each amount above 0, by its place.
fn push_shifts(
    shifts: &mut Items<Shift>,
    at: u32,
    side: u8,
    add: bool,
    amounts: &[u64],
) -> Result<(), AllocError>
    requires places { length amounts.now < 256 }
    requires small { AreSmall amounts.now }
    ensures { OnOk result (shifts.new ≡ shifts.old ++ made at side add amounts.now (length amounts.now)) }
{
    for place in 0..amounts.len() {
        push_shift(shifts, at, side, add, place, amounts[place])?;
    }
    Ok(())
}

impl Ledger {
    ghost use Rattle.vd_space_api.specs.Ledger.{AreSmallTerms, IsOverPlaces, given_by, handed_on, with_given, with_taken};
    ghost use Rattle.vd_space_api.specs.Rows.{amounts_of};
    ghost use Rattle.vd_space_api.specs.Terms.{row_at};

    /// Puts on a use what its target must cost, which is given by place.
    fn take(&mut self, alloc: Global, at: u32, target: usize) -> Result<Items<u64>, AllocError>
        requires target { target < length self.old.terms }
        requires places { length (row_at self.old.terms target) < 256 }
        requires small { AreSmallTerms self.old.terms }
        ensures taken { IfOk result (λ taken. taken ≡ amounts_of (row_at self.old.terms target)) }
        ensures ledger { IfOk result (λ taken. self.new ≡ with_taken at target self.old) }
    {
        let row = self.terms.as_slice()[target].as_slice();
        let taken = amounts(alloc, row)?;
        let rest = emptied(alloc, row)?;
        push_shifts(&mut self.shifts, at, 1, false, taken.as_slice())?;
        self.terms.set(target, rest);
        Ok(taken)
    }

    /// Puts on the source of a use what the use must cost by place.
    fn give(
        &mut self,
        alloc: Global,
        at: u32,
        source: usize,
        given: &[u64],
    ) -> Result<(), AllocError>
        requires source { source < length self.old.terms }
        requires places { length given.now < 256 }
        requires given { AreSmall given.now }
        requires small { AreSmallTerms self.old.terms }
        ensures { OnOk result (self.new ≡ with_given at source given.now self.old) }
    {
        let row = raised(alloc, self.terms.as_slice()[source].as_slice(), given)?;
        push_shifts(&mut self.shifts, at, 0, true, given)?;
        self.terms.set(source, row);
        Ok(())
    }

    /// Hands on what the target of a use must cost, and then what the use must.
    fn hand_on(
        &mut self,
        alloc: Global,
        list: &[Proto],
        candidates: &[Items<bool>],
        at: u32,
        u: &Use,
    ) -> Result<(), AllocError>
        requires source { u.now.source.0 < length self.old.terms }
        requires target { u.now.target.0 < length self.old.terms }
        requires ledger { IsOverPlaces list.now candidates.now self.old }
        requires given { AreSmall (given_by list.now candidates.now u.now self.old) }
        ensures { OnOk result (self.new ≡ handed_on list.now candidates.now at u.now self.old) }
    {
        let source = usize::from(u.source.0);
        let target = usize::from(u.target.0);
        let taken = self.take(alloc, at, target)?;
        let given = givens(
            alloc,
            list,
            u.weight,
            candidates[source].as_slice(),
            candidates[target].as_slice(),
            taken.as_slice(),
        )?;
        self.give(alloc, at, source, given.as_slice())
    }
}

/// Hands on what each use brings, from the last to the first.
fn hand_all_on(
    alloc: Global,
    problem: &Problem,
    list: &[Proto],
    candidates: &[Items<bool>],
    ledger: &mut Ledger,
) -> Result<(), AllocError>
    requires list { AreProtocols problem.now list.now }
    requires well_formed { IsWellFormed problem.now }
    requires candidates { candidates.now ≡ map (candidates_of problem.now) problem.now.slots }
    requires ledger { IsHandedOn problem.now (length problem.now.uses) ledger.old }
    ensures shifts { OnOk result (ledger.new.shifts ≡ usual problem.now) }
    ensures small { OnOk result (AllByRecursion IsSmallShift ledger.new.shifts) }
{
    let uses = problem.uses.as_slice();
    for at in (0..uses.len()).rev() {
        ledger.hand_on(alloc, list, candidates, at as u32, &uses[at])?;
    }
    Ok(())
}

/// The usual shifts. From the last use to the first, what its target must cost at a candidate goes on the use, and then
/// what the use must cost from a candidate of its source, whatever its target stands at, goes on the source.
pub fn usual(alloc: Global, problem: &Problem) -> Result<Items<Shift>, AllocError>
    requires { IsWellFormed problem.now }
    ensures usual { IfOk result (λ shifts. shifts ≡ usual problem.now) }
    ensures few { IfOk result (λ shifts. length shifts ≤ most_certificate_shifts) }
    ensures small { IfOk result (AllByRecursion IsSmallShift) }
{
    let list = protocols(alloc, problem.hosts.as_slice().len() as u8)?;
    let candidates = all_candidates(alloc, problem, list.as_slice())?;
    let terms = all_terms(alloc, problem, list.as_slice())?;
    let mut ledger = Ledger {
        terms,
        shifts: Items::new(alloc),
    };
    hand_all_on(
        alloc,
        problem,
        list.as_slice(),
        candidates.as_slice(),
        &mut ledger,
    )?;
    let Ledger { terms: _, shifts } = ledger;
    Ok(shifts)
}
