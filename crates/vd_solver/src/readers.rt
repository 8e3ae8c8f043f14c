//! Which rules read which part.

ghost use Rattle.std.specs.Prelude.{◌≡◌, ◌^◌, ◌<◌, [], IfOk, length, replicate};
ghost use Rattle.vd_solver.specs.Reading.{IsIndex, part_number, read_part};

use std::alloc::{AllocError, Global};
use vd_base::Items;
use vd_constraints::{Bound, Part, Place, System};

/// For each part, by its number, the places of the rules whose bounds read it.
pub(crate) fn readers(alloc: Global, system: &System) -> Result<Vec<Items<u32>>, AllocError>
    ensures { IfOk result (λ readers. IsIndex system.now (length system.now.lower) readers.items) }
{
    let places = system.slots() as usize + system.blocks() as usize;
    let mut readers = empty_lists(alloc, 2 * places)?;
    for (place, rule) in system.lower().iter().enumerate() {
        if let Some(part) = part_of_bound(&rule.bound) {
            readers[number(system.slots(), part)].push(place as u32)?;
        }
    }
    Ok(readers)
}

/// The number of a part in a system of so many slots.
pub(crate) fn number(slots: u32, part: Part) -> usize
    ensures { result ≡ part_number slots part }
{
    let place = match part.at {
        Place::Slot(slot) => usize::from(slot.0),
        Place::Block(block) => slots as usize + block as usize,
    };
    if part.integ { 2 * place + 1 } else { 2 * place }
}

/// The part that a bound reads.
fn part_of_bound(bound: &Bound) -> Option<Part>
    ensures { result ≡ read_part bound.now }
{
    match bound {
        Bound::Constant(_) => None,
        Bound::Same(part) | Bound::Given(_, part) | Bound::Or(_, part) => Some(*part),
    }
}

fn empty_lists(alloc: Global, count: usize) -> Result<Vec<Items<u32>>, AllocError>
    ensures { IfOk result (λ lists. lists.items ≡ replicate count []) }
{
    let mut lists = Vec::with_capacity(alloc, count)?;
    for _ in 0..count {
        lists.push(Items::new(alloc))?;
    }
    Ok(lists)
}
