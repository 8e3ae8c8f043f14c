//! Which uses, outputs, guards and indexes name a slot.

ghost use Rattle.std.specs.Prelude.{◌≡◌, ◌<◌, ◌==◌, IfOk, length};
ghost use Rattle.std.specs.List.{list_any};
ghost use Rattle.vd_base.specs.declared.ids.SlotId.{SlotId as Slots};
ghost use Rattle.vd_space_prefix.specs.Naming.{AreCountable, naming_of, numbers_from};
ghost use Rattle.vd_space_prefix.specs.Transfers.{by_place};
ghost use Rattle.vd_space.specs.Growth.{guard_names, index_names, output_names, use_names};

use crate::naming::Naming;
use std::alloc::{AllocError, Global};
use vd_base::{Items, SlotId};
use vd_space::{Guard, Index, Output, Problem, Use};

/// What names each slot.
pub fn namings(alloc: Global, problem: &Problem) -> Result<Items<Naming>, AllocError>
    requires { AreCountable problem.now }
    ensures { IfOk result (λ namings. namings ≡ by_place (length problem.now.slots) (naming_of problem.now)) }
{
    let mut namings = Items::new(alloc);
    let slots = problem.slots.as_slice().len();
    for slot in 0..slots {
        namings.push(naming(alloc, problem, slot as u32)?)?;
    }
    Ok(namings)
}

/// What names a slot.
fn naming(alloc: Global, problem: &Problem, slot: u32) -> Result<Naming, AllocError>
    requires { AreCountable problem.now }
    ensures { IfOk result (λ naming. naming ≡ naming_of problem.now slot) }
{
    Ok(Naming {
        uses: numbers_of_uses(alloc, problem.uses.as_slice(), slot)?,
        outputs: numbers_of_outputs(alloc, problem.outputs.as_slice(), slot)?,
        guards: numbers_of_guards(alloc, problem.guards.as_slice(), slot)?,
        indexes: numbers_of_indexes(alloc, problem.indexes.as_slice(), slot)?,
    })
}

/// The numbers of the uses that name the slot.
fn numbers_of_uses(alloc: Global, uses: &[Use], slot: u32) -> Result<Items<u32>, AllocError>
    requires { length uses.now < 4294967296 }
    ensures { IfOk result (λ numbers. numbers ≡ numbers_from (use_names slot) 0 uses.now) }
{
    let mut numbers = Items::new(alloc);
    for (number, item) in uses.iter().enumerate() {
        if does_use_name(item, slot) {
            numbers.push(number as u32)?;
        }
    }
    Ok(numbers)
}

fn does_use_name(item: &Use, slot: u32) -> bool
    ensures { result ≡ use_names slot item.now }
{
    item.source.0 as u32 == slot || item.target.0 as u32 == slot
}

/// The numbers of the outputs that name the slot.
fn numbers_of_outputs(
    alloc: Global,
    outputs: &[Output],
    slot: u32,
) -> Result<Items<u32>, AllocError>
    requires { length outputs.now < 4294967296 }
    ensures { IfOk result (λ numbers. numbers ≡ numbers_from (output_names slot) 0 outputs.now) }
{
    let mut numbers = Items::new(alloc);
    for (number, item) in outputs.iter().enumerate() {
        if does_output_name(item, slot) {
            numbers.push(number as u32)?;
        }
    }
    Ok(numbers)
}

fn does_output_name(item: &Output, slot: u32) -> bool
    ensures { result ≡ output_names slot item.now }
{
    item.slot.0 as u32 == slot
}

/// The numbers of the guards that name the slot.
fn numbers_of_guards(alloc: Global, guards: &[Guard], slot: u32) -> Result<Items<u32>, AllocError>
    requires { length guards.now < 4294967296 }
    ensures { IfOk result (λ numbers. numbers ≡ numbers_from (guard_names slot) 0 guards.now) }
{
    let mut numbers = Items::new(alloc);
    for (number, item) in guards.iter().enumerate() {
        if does_guard_name(item, slot) {
            numbers.push(number as u32)?;
        }
    }
    Ok(numbers)
}

fn does_guard_name(item: &Guard, slot: u32) -> bool
    ensures { result ≡ guard_names slot item.now }
{
    item.slot.0 as u32 == slot || is_among(item.slots.as_slice(), slot)
}

/// Whether the slot is one of these.
fn is_among(slots: &[SlotId], slot: u32) -> bool
    ensures { result ≡ list_any (λ (s : Slots). s.0 == slot) slots.now }
{
    for other in slots {
        if other.0 as u32 == slot {
            return true;
        }
    }
    false
}

/// The numbers of the indexes that name the slot.
fn numbers_of_indexes(alloc: Global, indexes: &[Index], slot: u32) -> Result<Items<u32>, AllocError>
    requires { length indexes.now < 4294967296 }
    ensures { IfOk result (λ numbers. numbers ≡ numbers_from (index_names slot) 0 indexes.now) }
{
    let mut numbers = Items::new(alloc);
    for (number, item) in indexes.iter().enumerate() {
        if does_index_name(item, slot) {
            numbers.push(number as u32)?;
        }
    }
    Ok(numbers)
}

fn does_index_name(item: &Index, slot: u32) -> bool
    ensures { result ≡ index_names slot item.now }
{
    item.array.0 as u32 == slot || item.index.0 as u32 == slot
}
