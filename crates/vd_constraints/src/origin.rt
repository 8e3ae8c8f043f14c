//! What asks for a check.

ghost use Rattle.std.specs.Prelude.{◌≡◌, ◌++◌, OnOk};
ghost use Rattle.vd_constraints.specs.Origins.{right_origins, slot_origins};

use std::alloc::AllocError;
use vd_base::{HostId, Items, SlotId};
use vd_core::{NormalForm, Right};

/// What asks for a check: a step of the program, and the host of the step where it has one.
#[derive(Clone, Copy, PartialEq, Eq, Debug)]
pub enum Origin {
    /// The host has to answer for what it hands in.
    Input(HostId),
    /// The host learns that it is asked.
    Asked(HostId),
    /// Those whom an `endorse` names have to answer for its value.
    Endorse,
    /// The host has to be allowed to read what it is told.
    Output(HostId),
    /// The host learns that it is told something.
    Told(HostId),
    /// Whoever may read by a written label has to be allowed to read what stands there.
    Readers,
    /// Whoever answers by a written label has to answer for what stands there.
    Answerers,
}

/// Adds what asks for the checks of a right side.
pub(crate) fn add_right_origins(
    origins: &mut Items<Origin>,
    right: &Right,
) -> Result<(), AllocError>
    ensures { OnOk result (origins.new ≡ origins.old ++ right_origins right.now) }
{
    match right {
        Right::Input(host) => {
            origins.extend_from_slice(&[Origin::Input(*host), Origin::Asked(*host)])
        }
        Right::Endorse(_, _) => origins.push(Origin::Endorse),
        Right::Lit(_)
        | Right::Turn
        | Right::Copy(_)
        | Right::Load(_)
        | Right::Apply(_, _)
        | Right::Get(_, _)
        | Right::Declassify(_, _) => Ok(()),
    }
}

/// Adds what asks for the checks of the label that the source writes at a slot, if it does.
pub(crate) fn add_slot_origins(
    origins: &mut Items<Origin>,
    program: &NormalForm,
    slot: SlotId,
) -> Result<(), AllocError>
    ensures { OnOk result (origins.new ≡ origins.old ++ slot_origins program.now slot) }
{
    match program.slots.as_slice().get(usize::from(slot.0)) {
        Some(slot) => match &slot.label {
            Some(_) => origins.extend_from_slice(&[Origin::Readers, Origin::Answerers]),
            None => Ok(()),
        },
        None => Ok(()),
    }
}
