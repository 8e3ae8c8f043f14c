//! Whether a labelling keeps every rule and every check of a system, and the rules that make a check fail.
#![tactic(auto)]

ghost use Rattle.std.specs.Prelude.{◌≡◌, ◌↔◌, All, IfErr, IsOk, IsTrue};
ghost use Rattle.vd_constraints.specs.Satisfies.{HoldsCheck, HoldsRule, IsBoundOver, IsLabelling, Satisfies, formula_at};
ghost use Rattle.vd_constraints.specs.Systems.{IsLabelOver};
ghost use Rattle.vd_flow.specs.Faults.{IsFaultOf};

mod laws;
mod ways;

pub use laws::ways_make_checks_fail;
use std::error::Error;
use std::fmt;
use vd_constraints::{Bound, Check, Labels, Lower, System};
use vd_formula::Label;
pub use ways::{Step, way};

/// Why a labelling is refused.
#[derive(Clone, Copy, PartialEq, Eq, Debug)]
pub enum FlowFault {
    /// The first rule that fails, by its place in the system.
    Lower(u32),
    /// Where all rules hold, the first check that fails, by its place in the system.
    Upper(u32),
}

impl fmt::Display for FlowFault {
    fn fmt<W: fmt::Write>(&self, f: &mut fmt::Formatter<W>) -> fmt::Result {
        match self {
            FlowFault::Lower(rule) => write!(f, "rule {rule} fails"),
            FlowFault::Upper(check) => write!(f, "check {check} fails"),
        }
    }
}

impl Error for FlowFault {}

/// Whether the labels are a labelling of the system, which can be confirmed or refused.
pub fn is_labelling(system: &System, labels: &Labels) -> bool
    ensures { IsTrue result ↔ IsLabelling system.now labels.now }
{
    let names = system.principals().as_slice().len();
    let slots = labels.slots.as_slice();
    let blocks = labels.blocks.as_slice();
    slots.len() == system.slots() as usize
        && blocks.len() == system.blocks() as usize
        && are_over(names, slots)
        && are_over(names, blocks)
}

/// Whether each label is over so many names.
fn are_over(names: usize, labels: &[Label]) -> bool
    ensures { IsTrue result ↔ All (IsLabelOver names) labels.now }
{
    for label in labels {
        if usize::from(label.conf.names()) != names || usize::from(label.integ.names()) != names {
            return false;
        }
    }
    true
}

/// Tests every rule and every check of the system at this labelling.
pub fn confirm(system: &System, labels: &Labels) -> Result<(), FlowFault>
    requires { IsLabelling system.now labels.now }
    ensures exact { IsOk result ↔ Satisfies system.now labels.now }
    ensures fault { IfErr result (IsFaultOf system.now labels.now) }
{
    for (place, rule) in system.lower().iter().enumerate() {
        if !holds_rule(labels, rule) {
            return Err(FlowFault::Lower(place as u32));
        }
    }
    for (place, check) in system.checks().iter().enumerate() {
        if !holds_check(labels, check) {
            return Err(FlowFault::Upper(place as u32));
        }
    }
    Ok(())
}

/// Whether the rule's part acts for its bound.
fn holds_rule(labels: &Labels, rule: &Lower) -> bool
    requires { IsBoundOver (formula_at labels.now rule.now.part).names labels.now rule.now.bound }
    ensures { IsTrue result ↔ HoldsRule labels.now rule.now }
{
    let part = labels.part(rule.part);
    match &rule.bound {
        Bound::Constant(formula) => part.acts_for(formula),
        Bound::Same(other) => part.acts_for(&labels.part(*other)),
        Bound::Given(formula, other) => part.acts_for(&formula.implies(&labels.part(*other))),
        Bound::Or(formula, other) => part.acts_for(&formula.either(&labels.part(*other))),
    }
}

/// Whether the check's constant acts for its part.
fn holds_check(labels: &Labels, check: &Check) -> bool
    requires { check.now.constant.names ≡ (formula_at labels.now check.now.part).names }
    ensures { IsTrue result ↔ HoldsCheck labels.now check.now }
{
    check.constant.acts_for(&labels.part(check.part))
}
