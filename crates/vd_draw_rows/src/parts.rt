//! Who takes part in the branches of a guard.

ghost use Rattle.std.specs.Prelude.{◌≡◌, ◌||◌, ℕ, List, map};
ghost use Rattle.std.specs.List.{list_any};
ghost use Rattle.vd_base.specs.HostSets.{same_host};
ghost use Rattle.vd_core.specs.declared.normal.NormalForm.{NormalForm as Forms};
ghost use Rattle.vd_draw_rows.specs.Moves as moves_spec;
ghost use Rattle.vd_draw_rows.specs.Rows.{drawn};
ghost use Rattle.vd_draw_rows.specs.Parts.{part_of, part_of_all};
ghost use Rattle.vd_space.specs.Reading.{named_by};

use vd_base::{HostId, Proto, SlotId, is_holder};
use vd_core::{Right, Stmt};

/// Whether a slot is kept at a host.
fn is_kept(list: &[Proto], host: HostId, slot: SlotId) -> bool
    ensures { result ≡ moves_spec.kept_at list.now host slot }
{
    match list.get(usize::from(slot.0)) {
        Some(protocol) => is_holder(*protocol, host),
        None => false,
    }
}

/// Whether one of some slots is kept at a host.
fn is_any_kept(list: &[Proto], host: HostId, slots: &[SlotId]) -> bool
    ensures { result ≡ list_any (moves_spec.kept_at list.now host) slots.now }
{
    for slot in slots {
        if is_kept(list, host, *slot) {
            return true;
        }
    }
    false
}

/// Whether a slot is kept at a host that a right side names.
fn is_right_kept(list: &[Proto], host: HostId, right: &Right) -> bool
    ensures { result ≡ list_any (moves_spec.kept_at list.now host) (named_by right.now) }
{
    match right {
        Right::Lit(_) | Right::Turn | Right::Input(_) => false,
        Right::Copy(value)
        | Right::Declassify(value, _)
        | Right::Endorse(value, _)
        | Right::Load(value) => is_kept(list, host, *value),
        Right::Apply(_, operands) => is_any_kept(list, host, operands.as_slice()),
        Right::Get(array, index) => is_kept(list, host, *array) || is_kept(list, host, *index),
    }
}

/// Whether a host takes part in a binding.
fn is_part_of_binding(list: &[Proto], host: HostId, slot: SlotId, right: &Right) -> bool
    ensures { result ≡ (moves_spec.kept_at list.now host slot || list_any (moves_spec.kept_at list.now host) (named_by right.now)) }
{
    is_kept(list, host, slot) || is_right_kept(list, host, right)
}

/// Whether a host takes part where a word is stored in a variable.
fn is_part_of_store(list: &[Proto], host: HostId, variable: SlotId, value: SlotId) -> bool
    ensures { result ≡ (moves_spec.kept_at list.now host variable || moves_spec.kept_at list.now host value) }
{
    is_kept(list, host, variable) || is_kept(list, host, value)
}

/// Whether a host takes part where a word is stored in an array.
fn is_part_of_put(list: &[Proto], host: HostId, array: SlotId, index: SlotId, value: SlotId) -> bool
    ensures { result ≡ (moves_spec.kept_at list.now host array || (moves_spec.kept_at list.now host index || moves_spec.kept_at
        list.now host value)) }
{
    is_kept(list, host, array) || is_part_of_store(list, host, index, value)
}

/// Whether a host takes part where a host is told a word.
fn is_part_of_output(list: &[Proto], host: HostId, slot: SlotId, told: HostId) -> bool
    ensures { result ≡ (same_host host told || moves_spec.kept_at list.now host slot) }
{
    host == told || is_kept(list, host, slot)
}

/// Whether a host takes part in a block: it is told something there, or a slot that is named there is kept at it.
#[cycle(parts)]
fn takes_part(list: &[Proto], host: HostId, body: &[Stmt]) -> bool
    ensures { (source : List ℕ) (p : Forms) → result ≡ part_of_all list.now host (map (drawn source p list.now) body.now) }
{
    for stmt in body {
        if is_part(list, host, stmt) {
            return true;
        }
    }
    false
}

/// Whether a host takes part in one of two blocks.
pub(crate) fn takes_part_in_either(
    list: &[Proto],
    host: HostId,
    first: &[Stmt],
    other: &[Stmt],
) -> bool
    ensures { (source : List ℕ) (p : Forms) → result ≡ (part_of_all list.now host (map (drawn source p list.now) first.now) ||
        part_of_all list.now host (map (drawn source p list.now) other.now)) }
{
    takes_part(list, host, first) || takes_part(list, host, other)
}

/// Whether a host takes part in a statement.
#[cycle(parts)]
fn is_part(list: &[Proto], host: HostId, stmt: &Stmt) -> bool
    ensures { (source : List ℕ) (p : Forms) → result ≡ part_of list.now host (drawn source p list.now stmt.now) }
{
    match stmt {
        Stmt::Let(slot, right) => is_part_of_binding(list, host, *slot, right),
        Stmt::NewVar(variable, value) => is_part_of_store(list, host, *variable, *value),
        Stmt::Store(variable, value) => is_part_of_store(list, host, *variable, *value),
        Stmt::NewArray(array, _) => is_kept(list, host, *array),
        Stmt::Put(array, index, value) => is_part_of_put(list, host, *array, *index, *value),
        Stmt::Output(slot, told, _) => is_part_of_output(list, host, *slot, *told),
        Stmt::If(guard, then_block, else_block, _) => {
            if is_kept(list, host, *guard) {
                return true;
            }
            if takes_part(list, host, then_block.as_slice()) {
                return true;
            }
            takes_part(list, host, else_block.as_slice())
        }
        Stmt::For(_, body) => takes_part(list, host, body.as_slice()),
    }
}
