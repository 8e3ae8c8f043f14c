//! A step of the way of a label, as a place and a sentence.

ghost use Rattle.std.specs.Prelude.{◌≡◌, IfOk, map, slice_index};
ghost use Rattle.vd_diag_terminal.specs.FlowSteps as steps;

use crate::diag_choice::slot_name;
use crate::diag_flow::phrases::{guarded, vouched};
use std::alloc::{AllocError, Global};
use vd_base::{Bytes, Items, SlotId};
use vd_constraints::{Bound, Part, Place};
use vd_core::NormalForm;
use vd_diag::{Remark, three};
use vd_flow::Step;
use vd_formula::Formula;
use vd_report::formula_text;

/// The offset of the rule with this number; 0 where there is none.
fn offset_at(offsets: &[u32], number: usize) -> u32
    ensures { result ≡ slice_index offsets.now number }
{
    match offsets.get(number) {
        Some(offset) => *offset,
        None => 0,
    }
}

/// How a slot is named.
pub(crate) fn slot_phrase(
    alloc: Global,
    form: &NormalForm,
    slot: SlotId,
) -> Result<Bytes, AllocError>
    ensures { IfOk result (λ text. text ≡ steps.slot_phrase form.now slot) }
{
    let name = slot_name(form, usize::from(slot.0));
    if name == b"_".as_slice() {
        Bytes::from_slice(alloc, b"a value here")
    } else {
        three(alloc, b"`", name, b"`")
    }
}

/// How a place is named.
fn subject(alloc: Global, form: &NormalForm, at: Place) -> Result<Bytes, AllocError>
    ensures { IfOk result (λ text. text ≡ steps.subject form.now at) }
{
    match at {
        Place::Slot(slot) => slot_phrase(alloc, form, slot),
        Place::Block(_) => Bytes::from_slice(alloc, b"what is done in the branch"),
    }
}

/// That a value is made of another.
fn made_of(alloc: Global, form: &NormalForm, from: SlotId, to: SlotId) -> Result<Bytes, AllocError>
    ensures { IfOk result (λ text. text ≡ steps.made_of form.now from to) }
{
    let made = slot_phrase(alloc, form, to)?;
    let of = slot_phrase(alloc, form, from)?;
    three(alloc, made.as_slice(), b" is made of ", of.as_slice())
}

/// That a branch goes by a value.
fn goes_by(alloc: Global, form: &NormalForm, guard: SlotId) -> Result<Bytes, AllocError>
    ensures { IfOk result (λ text. text ≡ steps.goes_by form.now guard) }
{
    let guard = slot_phrase(alloc, form, guard)?;
    three(alloc, b"the branch goes by ", guard.as_slice(), b"")
}

/// That a value tells which branch is taken.
fn tells_branch(alloc: Global, form: &NormalForm, to: SlotId) -> Result<Bytes, AllocError>
    ensures { IfOk result (λ text. text ≡ steps.tells_branch form.now to) }
{
    let told = slot_phrase(alloc, form, to)?;
    three(alloc, told.as_slice(), b" tells which branch is taken", b"")
}

/// That what is at the one place tells of what is at the other.
fn passing(alloc: Global, form: &NormalForm, from: Place, to: Place) -> Result<Bytes, AllocError>
    ensures { IfOk result (λ text. text ≡ steps.passing form.now from to) }
{
    match from {
        Place::Slot(from) => match to {
            Place::Slot(to) => made_of(alloc, form, from, to),
            Place::Block(_) => goes_by(alloc, form, from),
        },
        Place::Block(_) => match to {
            Place::Slot(to) => tells_branch(alloc, form, to),
            Place::Block(_) => Bytes::from_slice(alloc, b"the branch stands in another one"),
        },
    }
}

/// What has a confidentiality, or an integrity, of this text.
fn entered(alloc: Global, integ: bool, formula: &[u8]) -> Result<Bytes, AllocError>
    ensures { IfOk result (λ text. text ≡ steps.entered integ formula.now) }
{
    if integ {
        vouched(alloc, formula)
    } else {
        guarded(alloc, formula)
    }
}

/// That a formula enters at a part.
fn entering(
    alloc: Global,
    form: &NormalForm,
    part: Part,
    formula: &Formula,
) -> Result<Bytes, AllocError>
    ensures { IfOk result (λ text. text ≡ steps.entering form.now part formula.now) }
{
    let what = subject(alloc, form, part.at)?;
    let formula = formula_text(alloc, &form.principals, formula)?;
    let has = entered(alloc, part.integ, formula.as_slice())?;
    three(alloc, what.as_slice(), b" is ", has.as_slice())
}

/// What is to be answered for.
fn answered(at: Place) -> &'static [u8]
    ensures { result.now ≡ steps.answered at }
{
    match at {
        Place::Slot(_) => b"it",
        Place::Block(_) => b"the branch",
    }
}

/// That a value is declassified.
fn declassified(alloc: Global, form: &NormalForm, at: Place, of: Place) -> Result<Bytes, AllocError>
    ensures { IfOk result (λ text. text ≡ steps.declassified form.now at of) }
{
    let what = subject(alloc, form, of)?;
    three(
        alloc,
        what.as_slice(),
        b" is declassified, and who could not read it before must answer for ",
        answered(at),
    )
}

/// That a value is endorsed.
fn endorsed(alloc: Global, form: &NormalForm, of: Place) -> Result<Bytes, AllocError>
    ensures { IfOk result (λ text. text ≡ steps.endorsed form.now of) }
{
    let what = subject(alloc, form, of)?;
    three(
        alloc,
        what.as_slice(),
        b" is endorsed, and who answered for it before must be able to read it",
        b"",
    )
}

/// That one part acts for another: confidentiality goes on with a value, and integrity comes from where it is used.
fn same_sentence(
    alloc: Global,
    form: &NormalForm,
    part: Part,
    from: Place,
) -> Result<Bytes, AllocError>
    ensures { IfOk result (λ text. text ≡ steps.same_sentence form.now part from) }
{
    if part.integ {
        passing(alloc, form, part.at, from)
    } else {
        passing(alloc, form, from, part.at)
    }
}

/// What is said of a rule.
fn rule_sentence(
    alloc: Global,
    form: &NormalForm,
    part: Part,
    bound: &Bound,
) -> Result<Bytes, AllocError>
    ensures { IfOk result (λ text. text ≡ steps.rule_sentence form.now part bound.now) }
{
    match bound {
        Bound::Constant(formula) => entering(alloc, form, part, formula),
        Bound::Same(from) => same_sentence(alloc, form, part, from.at),
        Bound::Given(_, from) => declassified(alloc, form, part.at, from.at),
        Bound::Or(_, from) => endorsed(alloc, form, from.at),
    }
}

/// The remark on a step.
fn step_remark(
    alloc: Global,
    form: &NormalForm,
    offsets: &[u32],
    step: &Step,
) -> Result<Remark, AllocError>
    ensures { IfOk result (λ remark. remark ≡ steps.step_remark form.now offsets.now step.now) }
{
    let sentence = rule_sentence(alloc, form, step.rule.part, &step.rule.bound)?;
    Ok(Remark {
        offset: Some(offset_at(offsets, step.number)),
        sentence,
    })
}

/// The remarks on the steps of a way.
pub(crate) fn way_remarks(
    alloc: Global,
    form: &NormalForm,
    offsets: &[u32],
    way: &[Step],
) -> Result<Items<Remark>, AllocError>
    ensures { IfOk result (λ remarks. remarks ≡ map (steps.step_remark form.now offsets.now) way.now) }
{
    let mut remarks = Items::new(alloc);
    for step in way {
        let remark = step_remark(alloc, form, offsets, step)?;
        remarks.push(remark)?;
    }
    Ok(remarks)
}
