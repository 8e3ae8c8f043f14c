//! The lines that tell the labels of slots.

ghost use Rattle.std.specs.Prelude.{◌≡◌, ◌++◌, codes, map, OnOk, IfOk};
ghost use Rattle.vd_report.specs.LabelLines.{all_behind, set_text, sets_text, formula_text as text_of_formula, label_line, label_lines};

use crate::name_sets::push_members;
use itoa::Buffer;
use std::alloc::{AllocError, Global};
use vd_base::{Bytes, Names};
use vd_constraints::Labels;
use vd_core::{NormalForm, Program, Slot};
use vd_formula::{Formula, Label};

/// One line for each slot: its number, its name and its label.
pub fn labels_text(alloc: Global, program: &Program, labels: &Labels) -> Result<Bytes, AllocError>
    ensures { IfOk result (λ text. text ≡ label_lines program.now.principals 0 program.now.slots labels.now.slots) }
{
    slot_lines(alloc, program.form(), labels)
}

/// The lines of a let-normal form.
fn slot_lines(alloc: Global, form: &NormalForm, labels: &Labels) -> Result<Bytes, AllocError>
    ensures { IfOk result (λ text. text ≡ label_lines form.now.principals 0 form.now.slots labels.now.slots) }
{
    let mut text = Bytes::new(alloc);
    let pairs = form.slots.iter().zip(labels.slots.iter());
    for (number, (slot, label)) in pairs.enumerate() {
        push_label_line(
            alloc,
            &mut text,
            &form.principals,
            number as u64,
            slot,
            label,
        )?;
    }
    Ok(text)
}

/// Puts the line of a slot at the end.
fn push_label_line(
    alloc: Global,
    text: &mut Bytes,
    principals: &Names,
    number: u64,
    slot: &Slot,
    label: &Label,
) -> Result<(), AllocError>
    ensures { OnOk result (text.new ≡ text.old ++ label_line principals.now number slot.now label.now) }
{
    text.extend_from_slice(Buffer::new().format(number).as_bytes())?;
    text.extend_from_slice(b" ")?;
    text.extend_from_slice(slot.name.as_slice())?;
    text.extend_from_slice(b" {")?;
    push_formula(alloc, text, principals, &label.conf)?;
    text.extend_from_slice(b" ; ")?;
    push_formula(alloc, text, principals, &label.integ)?;
    text.extend_from_slice(b"}\n")
}

/// A formula as its minimal sets, with the names of the principals; `any` where no one is needed, `none` where no set will do.
pub fn formula_text(
    alloc: Global,
    principals: &Names,
    formula: &Formula,
) -> Result<Bytes, AllocError>
    ensures { IfOk result (λ text. text ≡ text_of_formula principals.now formula.now) }
{
    let mut text = Bytes::new(alloc);
    push_formula(alloc, &mut text, principals, formula)?;
    Ok(text)
}

/// Puts a formula at the end.
fn push_formula(
    alloc: Global,
    text: &mut Bytes,
    principals: &Names,
    formula: &Formula,
) -> Result<(), AllocError>
    ensures { OnOk result (text.new ≡ text.old ++ text_of_formula principals.now formula.now) }
{
    if formula.at(0) {
        text.extend_from_slice(b"any")
    } else {
        let sets = formula.minimal_sets(alloc)?;
        push_sets(text, principals, sets.as_slice())
    }
}

/// Puts the minimal sets of a formula at the end.
fn push_sets(text: &mut Bytes, principals: &Names, sets: &[u8]) -> Result<(), AllocError>
    ensures { OnOk result (text.new ≡ text.old ++ sets_text principals.now sets.now) }
{
    match sets.split_first() {
        None => text.extend_from_slice(b"none"),
        Some((first, others)) => {
            push_members(text, principals, b" & ", *first)?;
            push_more_sets(text, principals, others)
        }
    }
}

/// Puts further sets at the end, each behind its separator.
fn push_more_sets(text: &mut Bytes, principals: &Names, sets: &[u8]) -> Result<(), AllocError>
    ensures { OnOk result (text.new ≡ text.old ++ all_behind (codes " | ") (map (set_text principals.now) sets.now)) }
{
    for set in sets {
        text.extend_from_slice(b" | ")?;
        push_members(text, principals, b" & ", *set)?;
    }
    Ok(())
}
