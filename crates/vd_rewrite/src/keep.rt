//! Statements of the old program that stay, with new numbers.

ghost use Rattle.std.specs.Prelude.{◌≡◌, OnOk};
ghost use Rattle.vd_core.specs.declared.normal.Stmt as stmt;
ghost use Rattle.vd_rewrite.specs.Rewriting.{kept_let, kept_variable, kept_array, moved, with_stmt};
ghost use Rattle.vd_rewrite.specs.Stops.{Stops};

use crate::copies::{copy_slot, move_right};
use crate::made::Made;
use crate::stop::Stop;
use std::alloc::Global;
use vd_base::{HostId, SlotId};
use vd_core::{Right, Slot, Stmt};

/// Appends a Let. `slots` are the old program's, and `block` is the number of the block that the statements stand in.
pub fn keep_let(
    alloc: Global,
    made: &mut Made,
    slots: &[Slot],
    block: u32,
    slot: SlotId,
    right: &Right,
) -> Result<(), Stop>
    ensures made { OnOk result (made.new ≡ kept_let slots.now slot right.now block made.old) }
    ensures stop { Stops result (kept_let slots.now slot right.now block made.old) }
{
    let right = move_right(alloc, made.table(), right)?;
    let entry = copy_slot(alloc, slots, slot, block)?;
    let next = made.next();
    made.add_kept(entry, Stmt::Let(next, right))
}

/// Appends a new variable.
pub fn keep_variable(
    alloc: Global,
    made: &mut Made,
    slots: &[Slot],
    block: u32,
    variable: SlotId,
    value: SlotId,
) -> Result<(), Stop>
    ensures made { OnOk result (made.new ≡ kept_variable slots.now variable value block made.old) }
    ensures stop { Stops result (kept_variable slots.now variable value block made.old) }
{
    let value = made.moved(value);
    let entry = copy_slot(alloc, slots, variable, block)?;
    let next = made.next();
    made.add_kept(entry, Stmt::NewVar(next, value))
}

/// Appends a new array.
pub fn keep_array(
    alloc: Global,
    made: &mut Made,
    slots: &[Slot],
    block: u32,
    array: SlotId,
    size: u32,
) -> Result<(), Stop>
    ensures made { OnOk result (made.new ≡ kept_array slots.now array size block made.old) }
    ensures stop { Stops result (kept_array slots.now array size block made.old) }
{
    let entry = copy_slot(alloc, slots, array, block)?;
    let next = made.next();
    made.add_kept(entry, Stmt::NewArray(next, size))
}

/// Appends a write to a variable.
pub fn keep_store(made: &mut Made, variable: SlotId, value: SlotId) -> Result<(), Stop>
    ensures made { OnOk result (made.new ≡ with_stmt (stmt.Store (moved made.old.table variable) (moved made.old.table value)) made.old) }
    ensures stop { Stops result made.old }
{
    let variable = made.moved(variable);
    let value = made.moved(value);
    made.push(Stmt::Store(variable, value))?;
    Ok(())
}

/// Appends a write to an array.
pub fn keep_put(made: &mut Made, array: SlotId, index: SlotId, value: SlotId) -> Result<(), Stop>
    ensures made { OnOk result (made.new ≡ with_stmt (stmt.Put (moved made.old.table array) (moved made.old.table index)
        (moved made.old.table value)) made.old) }
    ensures stop { Stops result made.old }
{
    let array = made.moved(array);
    let index = made.moved(index);
    let value = made.moved(value);
    made.push(Stmt::Put(array, index, value))?;
    Ok(())
}

/// Appends an output. `offset` is its place in the source.
pub fn keep_output(made: &mut Made, slot: SlotId, host: HostId, offset: u32) -> Result<(), Stop>
    ensures made { OnOk result (made.new ≡ with_stmt (stmt.Output (moved made.old.table slot) host offset) made.old) }
    ensures stop { Stops result made.old }
{
    let slot = made.moved(slot);
    made.push(Stmt::Output(slot, host, offset))?;
    Ok(())
}
