//! Where in the source the flow rules of a program stand.

ghost use Rattle.std.specs.Prelude.{◌≡◌, ◌++◌, IfOk, OnOk};
ghost use Rattle.std.specs.List.{flat_map};
ghost use Rattle.vd_diag_terminal.specs.FlowSteps as steps;

use crate::diag_choice::{later, later_slot, slot_offset};
use std::alloc::{AllocError, Global};
use vd_base::{Items, SlotId};
use vd_core::{NormalForm, Right, Stmt};

/// Adds the offset of a statement that has two rules.
fn add_two(offsets: &mut Items<u32>, offset: u32) -> Result<(), AllocError>
    ensures { OnOk result (offsets.new ≡ offsets.old ++ steps.two offset) }
{
    offsets.extend_from_slice(&[offset, offset])
}

/// Adds the offset of a statement that has four rules.
fn add_four(offsets: &mut Items<u32>, offset: u32) -> Result<(), AllocError>
    ensures { OnOk result (offsets.new ≡ offsets.old ++ steps.four offset) }
{
    offsets.extend_from_slice(&[offset, offset, offset, offset])
}

/// Adds the offset of a statement that has six rules.
fn add_six(offsets: &mut Items<u32>, offset: u32) -> Result<(), AllocError>
    ensures { OnOk result (offsets.new ≡ offsets.old ++ steps.six offset) }
{
    offsets.extend_from_slice(&[offset, offset, offset, offset, offset, offset])
}

/// Adds the offset of an operation with these operands.
fn add_operands(
    offsets: &mut Items<u32>,
    offset: u32,
    operands: &[SlotId],
) -> Result<(), AllocError>
    ensures { OnOk result (offsets.new ≡ offsets.old ++ flat_map (λ y. steps.two offset) operands.now) }
{
    for operand in operands {
        let _ = operand;
        add_two(offsets, offset)?;
    }
    Ok(())
}

/// Adds the offset of a binding with this right side.
fn add_right(offsets: &mut Items<u32>, offset: u32, right: &Right) -> Result<(), AllocError>
    ensures { OnOk result (offsets.new ≡ offsets.old ++ steps.right_offsets offset right.now) }
{
    match right {
        Right::Lit(_) | Right::Turn => Ok(()),
        Right::Copy(_) | Right::Load(_) | Right::Input(_) => add_two(offsets, offset),
        Right::Apply(_, operands) => add_operands(offsets, offset, operands.as_slice()),
        Right::Get(_, _) | Right::Endorse(_, _) => add_four(offsets, offset),
        Right::Declassify(_, _) => add_six(offsets, offset),
    }
}

/// Adds the offset of the label that the source writes at a slot, if it does.
fn add_label(offsets: &mut Items<u32>, form: &NormalForm, slot: SlotId) -> Result<(), AllocError>
    ensures { OnOk result (offsets.new ≡ offsets.old ++ steps.written_offsets form.now slot) }
{
    match form.slots.as_slice().get(usize::from(slot.0)) {
        Some(slot) => match &slot.label {
            Some(_) => add_two(offsets, slot.offset),
            None => Ok(()),
        },
        None => Ok(()),
    }
}

/// Adds the offset of a statement for each of its rules.
#[cycle(offsets)]
fn add_offsets(offsets: &mut Items<u32>, form: &NormalForm, stmt: &Stmt) -> Result<(), AllocError>
    ensures { OnOk result (offsets.new ≡ offsets.old ++ steps.offsets_of form.now stmt.now) }
{
    match stmt {
        Stmt::Let(slot, right) => {
            add_right(offsets, slot_offset(form, usize::from(slot.0)), right)?;
            add_label(offsets, form, *slot)
        }
        Stmt::NewVar(slot, _) => {
            add_four(offsets, slot_offset(form, usize::from(slot.0)))?;
            add_label(offsets, form, *slot)
        }
        Stmt::NewArray(slot, _) => {
            add_two(offsets, slot_offset(form, usize::from(slot.0)))?;
            add_label(offsets, form, *slot)
        }
        Stmt::Store(slot, value) => add_four(offsets, later_slot(form, *slot, *value)),
        Stmt::Put(slot, index, value) => {
            let array = slot_offset(form, usize::from(slot.0));
            add_six(offsets, later(array, later_slot(form, *index, *value)))
        }
        Stmt::Output(_, _, offset) => add_two(offsets, *offset),
        Stmt::If(_, then_block, else_block, offset) => {
            add_four(offsets, *offset)?;
            add_all_offsets(offsets, form, then_block.as_slice())?;
            add_all_offsets(offsets, form, else_block.as_slice())
        }
        Stmt::For(_, body) => add_all_offsets(offsets, form, body.as_slice()),
    }
}

/// Adds the offsets of statements for each of their rules.
#[cycle(offsets)]
fn add_all_offsets(
    offsets: &mut Items<u32>,
    form: &NormalForm,
    body: &[Stmt],
) -> Result<(), AllocError>
    ensures { OnOk result (offsets.new ≡ offsets.old ++ steps.offsets_in form.now body.now) }
{
    for stmt in body {
        add_offsets(offsets, form, stmt)?;
    }
    Ok(())
}

/// The offsets of the rules of a program, in their order.
pub(crate) fn rule_offsets(alloc: Global, form: &NormalForm) -> Result<Items<u32>, AllocError>
    ensures { IfOk result (λ offsets. offsets ≡ steps.rule_offsets form.now) }
{
    let mut offsets = Items::new(alloc);
    add_all_offsets(&mut offsets, form, form.body.as_slice())?;
    Ok(offsets)
}
