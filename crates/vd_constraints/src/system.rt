//! Systems of rules and checks on the labels of slots and blocks.

ghost use Rattle.std.specs.Prelude.{◌≡◌, ◌+◌, ◌^◌, ◌<◌, All, OnOk, length};
ghost use Rattle.vd_constraints.specs.Systems.{IsSystem, IsRuleOf, IsCheckOf};
ghost use Rattle.vd_constraints.specs.Rules.{conf, integ, rule, check, with_rules, with_checks, with_block};

use std::alloc::AllocError;
use std::marker::Model;
use vd_base::{Items, Names, SlotId};
use vd_formula::Formula;

/// What has a label.
#[derive(Clone, Copy, PartialEq, Eq, Debug)]
pub enum Place {
    Slot(SlotId),
    /// A block of statements: 0 for the whole program, and one for each If.
    Block(u32),
}

/// One part of one label: the integrity where `integ` is true, else the confidentiality.
#[derive(Clone, Copy, PartialEq, Eq, Debug)]
pub struct Part {
    pub at: Place,
    pub integ: bool,
}

impl Part {
    /// The confidentiality of the label at a place.
    pub fn conf(at: Place) -> Part
        ensures { result ≡ conf at }
    {
        Part { at, integ: false }
    }

    /// The integrity of the label at a place.
    pub fn integ(at: Place) -> Part
        ensures { result ≡ integ at }
    {
        Part { at, integ: true }
    }
}

/// What a part has to act for.
#[derive(Clone, Copy, PartialEq, Eq)]
pub enum Bound {
    Constant(Formula),
    Same(Part),
    /// The weakest formula whose conjunction with this formula acts for the part.
    Given(Formula, Part),
    /// The disjunction of this formula and the part.
    Or(Formula, Part),
}

/// The part acts for the bound.
#[derive(Clone, Copy, PartialEq, Eq)]
pub struct Lower {
    pub part: Part,
    pub bound: Bound,
}

impl Lower {
    /// The rule that a part acts for a bound.
    pub fn new(part: Part, bound: Bound) -> Lower
        ensures { result ≡ rule part bound }
    {
        Lower { part, bound }
    }
}

/// The constant acts for the part. `offset` is that of its statement in the source.
#[derive(Clone, Copy, PartialEq, Eq, Debug)]
pub struct Check {
    pub constant: Formula,
    pub part: Part,
    pub offset: u32,
}

impl Check {
    /// The check that a constant acts for a part, of the statement at an offset.
    pub fn new(constant: Formula, part: Part, offset: u32) -> Check
        ensures { result ≡ check constant part offset }
    {
        Check {
            constant,
            part,
            offset,
        }
    }
}

/// The rules and checks of a program. The number of a rule or a check is its place in its list.
#[derive(Drop)]
pub struct System {
    principals: Names,
    slots: u32,
    blocks: u32,
    lower: Items<Lower>,
    checks: Items<Check>,
}

impl Model for System {
    ghost use Rattle.vd_constraints.specs.Systems.{Constraints, IsSystem as Holds};

    ghost Value = { Constraints };

    ghost view = { λ s. record { principals = s.principals; slots = s.slots; blocks = s.blocks; lower = s.lower; checks = s.checks } };

    ghost invariant = { λ s. Holds (record { principals = s.principals; slots = s.slots; blocks = s.blocks; lower = s.lower; checks = s.checks }) };

    ghost inverse = { λ s. record { principals = s.principals; slots = s.slots; blocks = s.blocks; lower = s.lower; checks = s.checks } };
}

impl System {
    /// The system of these parts.
    pub fn new(
        principals: Names,
        slots: u32,
        blocks: u32,
        lower: Items<Lower>,
        checks: Items<Check>,
    ) -> System
        requires { IsSystem (record { principals = principals; slots = slots; blocks = blocks; lower = lower; checks = checks }) }
        ensures { result ≡ record { principals = principals; slots = slots; blocks = blocks; lower = lower; checks = checks } }
    {
        System {
            principals,
            slots,
            blocks,
            lower,
            checks,
        }
    }

    /// The names that its formulas are over.
    pub fn principals(&self) -> &Names
        ensures same { result.now ≡ self.now.principals }
        ensures valid { IsSystem self.now }
    {
        &self.principals
    }

    /// The number of slots.
    pub fn slots(&self) -> u32
        ensures same { result ≡ self.now.slots }
        ensures valid { IsSystem self.now }
    {
        self.slots
    }

    /// The number of blocks.
    pub fn blocks(&self) -> u32
        ensures same { result ≡ self.now.blocks }
        ensures valid { IsSystem self.now }
    {
        self.blocks
    }

    /// What each labelling has to keep from below.
    pub fn lower(&self) -> &[Lower]
        ensures same { result.now ≡ self.now.lower }
        ensures valid { IsSystem self.now }
    {
        self.lower.as_slice()
    }

    /// What each labelling has to keep from above.
    pub fn checks(&self) -> &[Check]
        ensures same { result.now ≡ self.now.checks }
        ensures valid { IsSystem self.now }
    {
        self.checks.as_slice()
    }

    /// Puts rules at the end.
    pub(crate) fn add_rules(&mut self, rules: &[Lower]) -> Result<(), AllocError>
        requires fit { All (IsRuleOf self.old) rules.now }
        requires few { length self.old.lower + length rules.now < 2 ^ 32 }
        ensures { OnOk result (self.new ≡ with_rules rules.now self.old) }
    {
        self.lower.extend_from_slice(rules)
    }

    /// Puts checks at the end.
    pub(crate) fn add_checks(&mut self, checks: &[Check]) -> Result<(), AllocError>
        requires fit { All (IsCheckOf self.old) checks.now }
        requires few { length self.old.checks + length checks.now < 2 ^ 32 }
        ensures { OnOk result (self.new ≡ with_checks checks.now self.old) }
    {
        self.checks.extend_from_slice(checks)
    }

    /// Has the label of one more block, and gives its number.
    pub(crate) fn add_block(&mut self) -> u32
        requires { self.old.blocks + 1 < 2 ^ 32 }
        ensures number { result ≡ self.old.blocks }
        ensures more { self.new ≡ with_block self.old }
    {
        let block = self.blocks;
        self.blocks = block + 1;
        block
    }
}
