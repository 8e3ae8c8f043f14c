//! Divisions without a protocol as loops.

ghost use Rattle.std.specs.Prelude.{◌≡◌, IfOk};
ghost use Rattle.vd_long.specs.Lengthened.{IsLengthened};
ghost use Rattle.vd_long.specs.Walks.{made_of_all};
ghost use Rattle.vd_rewrite.specs.Rewriting.{marked, made_at_start};
ghost use Rattle.vd_rewrite.specs.Stops.{Stops};

use crate::nesting::nest_within;
use crate::walk::Walk;
use std::alloc::{AllocError, Global};
use vd_base::Items;
use vd_base::limits::NESTING;
use vd_core::{Program, Slot, Stmt};
use vd_rewrite::{Made, Stop, fit, with_parts};

/// The program with loops of 32 turns in the place of the divisions whose slots are marked, or none where it is the same: where
/// no division is marked, or the new program would break a limit.
pub(crate) fn lengthen(
    alloc: Global,
    program: &Program,
    long: &[bool],
) -> Result<Option<Program>, AllocError>
    ensures { IfOk result (λ new. IsLengthened (marked long.now) program.now new) }
{
    let form = program.form();
    let walk = Walk {
        alloc,
        long,
        slots: form.slots.as_slice(),
    };
    if !walk.is_some_long(form.body.as_slice()) {
        return Ok(None);
    }
    match made_anew(alloc, &walk, form.body.as_slice()) {
        Ok((slots, body)) => {
            if !fit(body.as_slice()) {
                return Ok(None);
            }
            if !nest_within(body.as_slice(), NESTING) {
                return Ok(None);
            }
            let form = with_parts(alloc, form, slots, body)?;
            Ok(Some(Program::new(form)))
        }
        Err(Stop::TooMany) => Ok(None),
        Err(Stop::Memory(refused)) => Err(refused),
    }
}

fn made_anew(alloc: Global, walk: &Walk, body: &[Stmt]) -> Result<(Items<Slot>, Items<Stmt>), Stop>
    ensures slots { IfOk result (λ parts. parts.0 ≡ (made_of_all walk.now 0 body.now made_at_start).slots) }
    ensures body { IfOk result (λ parts. parts.1 ≡ (made_of_all walk.now 0 body.now made_at_start).body) }
    ensures stop { Stops result (made_of_all walk.now 0 body.now made_at_start) }
{
    let mut made = Made::at_start(alloc);
    walk.lengthen_all(&mut made, 0, body)?;
    Ok(made.into_parts())
}
