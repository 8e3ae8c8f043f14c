//! One rule, and what it raises.

ghost use Rattle.std.specs.Prelude.{◌≡◌, MatchBool};
ghost use Rattle.vd_formula.specs.TruthTable.{both_of};
ghost use Rattle.vd_constraints.specs.Satisfies.{HoldsRule, IsBoundOver, bound_at, formula_at};
ghost use Rattle.vd_solver.specs.LabelsLeastRaising.{IsWithin, with_part};
ghost use Rattle.vd_solver.specs.Raising.{Raises, bound_names};

use vd_constraints::{Bound, Labels, Lower, Part, Place};
use vd_formula::{Formula, Label};

/// Raises the rule's part no further than the rule asks; false where the rule held before.
pub(crate) fn raise(labels: &mut Labels, rule: &Lower) -> bool
    requires within { IsWithin labels.old rule.now.part.at }
    requires names { IsBoundOver (formula_at labels.old rule.now.part).names labels.old rule.now.bound }
    ensures { MatchBool result (Raises labels.old rule.now labels.new) ((labels.new ≡ labels.old) × HoldsRule labels.old rule.now) }
{
    let part = labels.part(rule.part);
    let bound = bound(labels, &rule.bound);
    if part.acts_for(&bound) {
        return false;
    }
    put(labels, rule.part, part.both(&bound));
    true
}

/// The formula that a rule's part has to act for.
fn bound(labels: &Labels, bound: &Bound) -> Formula
    requires { IsBoundOver (bound_names labels.now bound.now) labels.now bound.now }
    ensures value { result ≡ bound_at labels.now bound.now }
    ensures names { result.names ≡ bound_names labels.now bound.now }
{
    match bound {
        Bound::Constant(formula) => *formula,
        Bound::Same(part) => labels.part(*part),
        Bound::Given(formula, part) => formula.implies(&labels.part(*part)),
        Bound::Or(formula, part) => formula.either(&labels.part(*part)),
    }
}

/// Puts the formula in the place of the part.
fn put(labels: &mut Labels, part: Part, formula: Formula)
    requires { IsWithin labels.old part.at }
    ensures { labels.new ≡ with_part labels.old part formula }
{
    let old = labels.label(part.at);
    let label = if part.integ {
        Label {
            integ: formula,
            ..old
        }
    } else {
        Label {
            conf: formula,
            ..old
        }
    };
    match part.at {
        Place::Slot(slot) => labels.slots.set(usize::from(slot.0), label),
        Place::Block(block) => labels.blocks.set(block as usize, label),
    }
}
