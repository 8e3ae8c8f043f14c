//! The way of a label: the rules by which a check fails, from where a formula is asked for to the part of the check.

ghost use Rattle.std.specs.Prelude.{◌≡◌, IsTrue, IfOk, IfSome, reverse};
ghost use Rattle.vd_flow.specs.Walks.{IsEnd, IsFound, IsGround, IsWalk};
ghost use Rattle.vd_flow.specs.Ways.{IsState, IsWay, Keeps, KeepsAway, KeepsLarger, LetsThrough};

use std::alloc::{AllocError, Global};
use vd_base::Items;
use vd_constraints::{Bound, Check, Lower, Part, Place, System};
use vd_formula::Formula;

/// A step of the way: by its rule a group of principals is kept from the rule's part.
#[derive(Clone, Copy)]
pub struct Step {
    /// The number of the rule in its system.
    pub number: usize,
    pub rule: Lower,
    /// The set of the principals, by its number.
    pub group: u8,
}

/// A part, and a group that is kept from it.
#[derive(Clone, Copy)]
pub(crate) struct State {
    pub part: Part,
    pub group: u8,
}

/// Why a bound keeps a group away: by its constant alone, or since a part keeps a group away.
#[derive(Clone, Copy)]
pub(crate) enum Ground {
    Constant,
    Kept(State),
}

/// A rule that keeps a group from its part, and why.
#[derive(Clone, Copy)]
pub(crate) struct Found {
    pub number: usize,
    pub rule: Lower,
    pub basis: Ground,
}

/// For each part and group the round in which the group was found to be kept from the part; 0 where it was not. The round is the
/// length of a shortest way there.
#[derive(Drop)]
struct Table {
    slots: u32,
    groups: u8,
    rounds: Vec<u32>,
}

impl Table {
    /// Nothing is kept from anybody.
    fn new(alloc: Global, system: &System, groups: u8) -> Result<Table, AllocError> {
        let places = system.slots() as usize + system.blocks() as usize;
        let rounds = vec![in alloc; 0u32; 2 * places * usize::from(groups)]?;
        Ok(Table {
            slots: system.slots(),
            groups,
            rounds,
        })
    }

    /// The place of a state among the rounds.
    fn place(&self, state: State) -> usize {
        let place = match state.part.at {
            Place::Slot(slot) => usize::from(slot.0),
            Place::Block(block) => self.slots as usize + block as usize,
        };
        let part = if state.part.integ {
            2 * place + 1
        } else {
            2 * place
        };
        part * usize::from(self.groups) + usize::from(state.group)
    }

    fn round(&self, state: State) -> u32 {
        match self.rounds.get(self.place(state)) {
            Some(round) => *round,
            None => 0,
        }
    }

    /// Whether the group was found to be kept from the part before this round.
    fn is_before(&self, state: State, round: u32) -> bool {
        let found = self.round(state);
        0 < found && found < round
    }

    fn put(&mut self, state: State, round: u32) {
        let place = self.place(state);
        if place < self.rounds.len() {
            self.rounds[place] = round;
        }
    }

    /// The round's finds by one rule and one group; false where there is none.
    fn find(&mut self, rule: &Lower, group: u8, round: u32) -> bool {
        let state = State {
            part: rule.part,
            group,
        };
        if self.round(state) > 0 || ground_of(self, &rule.bound, group, round).is_none() {
            return false;
        }
        self.put(state, round);
        true
    }

    /// The round's finds by one rule; false where there is none.
    fn find_all(&mut self, rule: &Lower, round: u32) -> bool {
        let mut changed = false;
        for group in 0..self.groups {
            if self.find(rule, group, round) {
                changed = true;
            }
        }
        changed
    }

    /// The finds of a round; false where there is none.
    fn spread(&mut self, rules: &[Lower], round: u32) -> bool {
        let mut changed = false;
        for rule in rules {
            if self.find_all(rule, round) {
                changed = true;
            }
        }
        changed
    }
}

/// Whether a formula is false at a group.
fn keeps_away(formula: &Formula, group: u8) -> bool
    ensures { IsTrue result → KeepsAway formula.now group }
{
    u32::from(group) < 1u32 << u32::from(formula.names()) && !formula.at(group)
}

/// Whether a formula is true at a group.
fn lets_through(formula: &Formula, group: u8) -> bool
    ensures { IsTrue result → LetsThrough formula.now group }
{
    u32::from(group) < 1u32 << u32::from(formula.names()) && formula.at(group)
}

/// That this group was kept from this part before the round, if it was.
fn kept_before(table: &Table, state: State, round: u32) -> Option<Ground>
    ensures { IfSome result (λ basis. IsGround basis state.part state.group) }
{
    if table.is_before(state, round) {
        Some(Ground::Kept(state))
    } else {
        None
    }
}

/// A group at least as large, which the formula lets through and which was kept from the part before the round.
fn kept_larger(
    table: &Table,
    formula: &Formula,
    part: Part,
    group: u8,
    round: u32,
) -> Option<Ground>
    ensures { IfSome result (λ basis. KeepsLarger formula.now (IsGround basis part) group) }
{
    for larger in group..table.groups {
        let state = State {
            part,
            group: larger,
        };
        if group & larger == group
            && lets_through(formula, larger)
            && table.is_before(state, round)
        {
            return Some(Ground::Kept(state));
        }
    }
    None
}

/// Why the bound keeps the group away, by what was found before the round.
fn ground_of(table: &Table, bound: &Bound, group: u8, round: u32) -> Option<Ground>
    ensures { IfSome result (λ basis. Keeps (IsGround basis) bound.now group) }
{
    match bound {
        Bound::Constant(formula) => {
            if keeps_away(formula, group) {
                Some(Ground::Constant)
            } else {
                None
            }
        }
        Bound::Same(part) => kept_before(table, State { part: *part, group }, round),
        Bound::Given(formula, part) => kept_larger(table, formula, *part, group, round),
        Bound::Or(formula, part) => {
            if keeps_away(formula, group) {
                kept_before(table, State { part: *part, group }, round)
            } else {
                None
            }
        }
    }
}

/// The first rule that keeps this group from this part, by what was found before the round.
fn find_rule(table: &Table, rules: &[Lower], state: State, round: u32) -> Option<Found>
    ensures { IfSome result (IsFound rules.now state) }
{
    for (number, rule) in rules.iter().enumerate() {
        if rule.part == state.part {
            if let Some(basis) = ground_of(table, &rule.bound, state.group, round) {
                return Some(Found {
                    number,
                    rule: *rule,
                    basis,
                });
            }
        }
    }
    None
}

/// These steps, from the last to the first.
fn reversed(steps: Items<Step>) -> Items<Step>
    ensures { result ≡ reverse steps }
{
    let mut list = steps.into_vec();
    list.reverse();
    Items::from_vec(list)
}

/// The steps that keep this group from this part, by the rounds of the table.
fn walk(
    alloc: Global,
    table: &Table,
    rules: &[Lower],
    end: State,
) -> Result<Option<Items<Step>>, AllocError>
    ensures { IfOk result (λ way. IfSome way (IsWalk rules.now end)) }
{
    let mut steps = Items::new(alloc);
    let mut state = end;
    let mut round = table.round(end);
    'steps: while let Some(found) = find_rule(table, rules, state, round) {
        steps.push(Step {
            number: found.number,
            rule: found.rule,
            group: state.group,
        })?;
        let Ground::Kept(before) = found.basis else {
            return Ok(Some(reversed(steps)));
        };
        let earlier = table.round(before);
        if earlier >= round {
            return Ok(None);
        }
        state = before;
        round = earlier;
    }
    Ok(None)
}

/// The first group that the check's constant lets through and that was found to be kept from the check's part.
fn end_of(table: &Table, check: &Check) -> Option<State>
    ensures { IfSome result (IsEnd check.now) }
{
    for group in 0..table.groups {
        let state = State {
            part: check.part,
            group,
        };
        if lets_through(&check.constant, group) && table.round(state) > 0 {
            return Some(state);
        }
    }
    None
}

/// The rounds as far as the check fails, or nothing more is found.
fn table_of(alloc: Global, system: &System, check: &Check) -> Result<Table, AllocError> {
    let groups = 1u8 << u32::from(check.constant.names());
    let mut table = Table::new(alloc, system, groups)?;
    for round in 1..u32::MAX {
        if !table.spread(system.lower(), round) || end_of(&table, check).is_some() {
            return Ok(table);
        }
    }
    Ok(table)
}

/// A way to the fault of a check: rules that lead from a constant to its part, and that alone make it fail. A shortest one is looked
/// for. None if none is found.
pub fn way(alloc: Global, system: &System, check: &Check) -> Result<Option<Items<Step>>, AllocError>
    ensures { IfOk result (λ way. IfSome way (IsWay system.now check.now)) }
{
    let table = table_of(alloc, system, check)?;
    match end_of(&table, check) {
        Some(end) => walk(alloc, &table, system.lower(), end),
        None => Ok(None),
    }
}
