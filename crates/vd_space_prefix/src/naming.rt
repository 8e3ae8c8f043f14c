//! What names a slot, and whether it allows a further choice.

ghost use Rattle.std.specs.Prelude.{◌≡◌, true, slice_get, length};
ghost use Rattle.std.specs.Option.{option_map_or};
ghost use Rattle.vd_space_prefix.specs.Naming.{all_at, allows};
ghost use Rattle.vd_space.specs.Growth.{guard_names, with_choice};
ghost use Rattle.vd_space.specs.Validity.{guard_told, index_told, is_candidate, is_valid, output_joins, protocols, use_joins};
ghost use Rattle.vd_space.specs.WellFormed.{AreProtocols};

use vd_base::{Items, Proto};
use vd_space::{
    Guard, Problem, are_holders_told, is_candidate_at, is_guard_told, is_index_told,
    output_can_move, use_can_move,
};

/// The numbers of the uses, outputs, guards and indexes that name a slot.
#[derive(Drop)]
pub struct Naming {
    pub uses: Items<u32>,
    pub outputs: Items<u32>,
    pub guards: Items<u32>,
    pub indexes: Items<u32>,
}

/// Whether what names the slot behind a valid prefix allows a choice for it, which makes one prefix of the other.
pub(crate) fn is_allowed(
    problem: &Problem,
    list: &[Proto],
    naming: &Naming,
    choice: u32,
    before: &[u32],
    after: &[u32],
) -> bool
    requires list { AreProtocols problem.now list.now }
    requires grown { after.now ≡ with_choice before.now choice }
    requires valid { is_valid problem.now before.now ≡ true }
    requires named { all_at (guard_names (length before.now)) problem.now.guards naming.now.guards ≡ true }
    ensures { result ≡ allows problem.now naming.now (length before.now) choice after.now }
{
    can_choose(problem, list, before.len(), choice)
        && do_uses_join(problem, list, after, naming.uses.as_slice())
        && do_outputs_join(problem, list, after, naming.outputs.as_slice())
        && are_guards_told(
            problem,
            list,
            naming.guards.as_slice(),
            choice,
            before,
            after,
        )
        && are_indexes_told(problem, list, after, naming.indexes.as_slice())
}

/// Whether the place is a candidate of the slot.
fn can_choose(problem: &Problem, list: &[Proto], slot: usize, choice: u32) -> bool
    requires { AreProtocols problem.now list.now }
    ensures { result ≡ is_candidate problem.now slot choice }
{
    let makings = problem.slots.as_slice();
    if slot >= makings.len() {
        return false;
    }
    is_candidate_at(problem, list, &makings[slot], choice)
}

fn do_uses_join(problem: &Problem, list: &[Proto], prefix: &[u32], numbers: &[u32]) -> bool
    requires list { list.now ≡ protocols problem.now }
    ensures { result ≡ all_at (use_joins problem.now prefix.now) problem.now.uses numbers.now }
{
    for number in numbers {
        if !does_use_join(problem, list, prefix, *number) {
            return false;
        }
    }
    true
}

fn does_use_join(problem: &Problem, list: &[Proto], prefix: &[u32], number: u32) -> bool
    requires list { list.now ≡ protocols problem.now }
    ensures { result ≡ option_map_or (use_joins problem.now prefix.now) (slice_get problem.now.uses number) true }
{
    match problem.uses.as_slice().get(number as usize) {
        Some(u) => use_can_move(problem, list, prefix, u),
        None => true,
    }
}

fn do_outputs_join(problem: &Problem, list: &[Proto], prefix: &[u32], numbers: &[u32]) -> bool
    requires list { list.now ≡ protocols problem.now }
    ensures { result ≡ all_at (output_joins problem.now prefix.now) problem.now.outputs numbers.now }
{
    for number in numbers {
        if !does_output_join(problem, list, prefix, *number) {
            return false;
        }
    }
    true
}

fn does_output_join(problem: &Problem, list: &[Proto], prefix: &[u32], number: u32) -> bool
    requires list { list.now ≡ protocols problem.now }
    ensures { result ≡ option_map_or (output_joins problem.now prefix.now) (slice_get problem.now.outputs number) true }
{
    match problem.outputs.as_slice().get(number as usize) {
        Some(output) => output_can_move(problem, list, prefix, output),
        None => true,
    }
}

fn are_guards_told(
    problem: &Problem,
    list: &[Proto],
    numbers: &[u32],
    choice: u32,
    before: &[u32],
    after: &[u32],
) -> bool
    requires list { AreProtocols problem.now list.now }
    requires grown { after.now ≡ with_choice before.now choice }
    requires valid { is_valid problem.now before.now ≡ true }
    requires named { all_at (guard_names (length before.now)) problem.now.guards numbers.now ≡ true }
    ensures { result ≡ all_at (guard_told problem.now after.now) problem.now.guards numbers.now }
{
    for number in numbers {
        if !is_guard_told_at(problem, list, *number, choice, before, after) {
            return false;
        }
    }
    true
}

fn is_guard_told_at(
    problem: &Problem,
    list: &[Proto],
    number: u32,
    choice: u32,
    before: &[u32],
    after: &[u32],
) -> bool
    requires list { AreProtocols problem.now list.now }
    requires grown { after.now ≡ with_choice before.now choice }
    requires valid { is_valid problem.now before.now ≡ true }
    requires named { option_map_or (guard_names (length before.now)) (slice_get problem.now.guards number) true ≡ true }
    ensures { result ≡ option_map_or (guard_told problem.now after.now) (slice_get problem.now.guards number) true }
{
    match problem.guards.as_slice().get(number as usize) {
        Some(guard) => is_guard_still_told(problem, list, guard, choice, before, after),
        None => true,
    }
}

/// Whether a guard that was told to all hosts that took part is told to all that take part with a choice more: where the slot
/// is not the guard's own, to those of the choice.
fn is_guard_still_told(
    problem: &Problem,
    list: &[Proto],
    guard: &Guard,
    choice: u32,
    before: &[u32],
    after: &[u32],
) -> bool
    requires list { AreProtocols problem.now list.now }
    requires grown { after.now ≡ with_choice before.now choice }
    requires told { guard_told problem.now before.now guard.now ≡ true }
    requires named { guard_names (length before.now) guard.now ≡ true }
    ensures { result ≡ guard_told problem.now after.now guard.now }
{
    if usize::from(guard.slot.0) == before.len() {
        is_guard_told(problem, list, after, guard)
    } else {
        are_holders_told(problem, list, after, guard.slot, choice)
    }
}

fn are_indexes_told(problem: &Problem, list: &[Proto], prefix: &[u32], numbers: &[u32]) -> bool
    requires { AreProtocols problem.now list.now }
    ensures { result ≡ all_at (index_told problem.now prefix.now) problem.now.indexes numbers.now }
{
    for number in numbers {
        if !is_index_told_at(problem, list, prefix, *number) {
            return false;
        }
    }
    true
}

fn is_index_told_at(problem: &Problem, list: &[Proto], prefix: &[u32], number: u32) -> bool
    requires { AreProtocols problem.now list.now }
    ensures { result ≡ option_map_or (index_told problem.now prefix.now) (slice_get problem.now.indexes number) true }
{
    match problem.indexes.as_slice().get(number as usize) {
        Some(index) => is_index_told(problem, list, prefix, index),
        None => true,
    }
}
