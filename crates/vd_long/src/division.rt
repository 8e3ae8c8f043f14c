//! Which Lets are divisions, and the loops that they become.

ghost use Rattle.std.specs.Prelude.{◌≡◌, OnOk};
ghost use Rattle.std.specs.Option.{option_map};
ghost use Rattle.vd_long.specs.Lengthened.{parts_of as the_parts};
ghost use Rattle.vd_long.specs.Divisions.{as_parts, place_in, long_of};
ghost use Rattle.vd_rewrite.specs.Stops.{Stops};

use crate::steps::Place;
use std::alloc::Global;
use vd_base::{Op, SlotId};
use vd_core::{Right, Slot};
use vd_rewrite::{Made, Stop, copy_slot};

/// A division of the first slot by the second.
#[derive(Clone, Copy, PartialEq, Eq)]
pub(crate) enum Division {
    Quotient(SlotId, SlotId),
    Remainder(SlotId, SlotId),
}

/// The division that a right side is, if it is one.
pub(crate) fn parts_of(right: &Right) -> Option<Division>
    ensures { option_map as_parts result ≡ the_parts right.now }
{
    match right {
        Right::Apply(Op::Div, slots) => match slots.as_slice() {
            [dividend, divisor] => Some(Division::Quotient(*dividend, *divisor)),
            _ => None,
        },
        Right::Apply(Op::Rem, slots) => match slots.as_slice() {
            [dividend, divisor] => Some(Division::Remainder(*dividend, *divisor)),
            _ => None,
        },
        _ => None,
    }
}

/// Where the statements of a division go.
fn place_of(made: &Made, offset: u32, block: u32, dividend: SlotId, divisor: SlotId) -> Place
    ensures { result ≡ place_in made.now offset block dividend divisor }
{
    Place {
        base: made.next().0,
        dividend: made.moved(dividend),
        divisor: made.moved(divisor),
        offset,
        block,
    }
}

/// Appends the loop that a division becomes, and what stands around it.
pub(crate) fn add_long(
    alloc: Global,
    made: &mut Made,
    slots: &[Slot],
    block: u32,
    slot: SlotId,
    division: Division,
) -> Result<(), Stop>
    ensures made { OnOk result (made.new ≡ long_of slots.now slot division block made.old) }
    ensures stop { Stops result (long_of slots.now slot division block made.old) }
{
    if made.is_full() {
        return Err(Stop::TooMany);
    }
    let entry = copy_slot(alloc, slots, slot, block)?;
    match division {
        Division::Quotient(a, b) => {
            let place = place_of(made, entry.offset, block, a, b);
            place.quotient(alloc, made, entry)
        }
        Division::Remainder(a, b) => {
            let place = place_of(made, entry.offset, block, a, b);
            place.remainder(alloc, made, entry)
        }
    }
}
