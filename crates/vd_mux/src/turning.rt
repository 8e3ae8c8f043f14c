//! Hidden branches as selections.

ghost use Rattle.std.specs.Prelude.{◌≡◌, [], IfOk};
ghost use Rattle.vd_rewrite.specs.Rewriting.{made_at_start};
ghost use Rattle.vd_rewrite.specs.Stops.{Stops};
ghost use Rattle.vd_mux.specs.Selections.{IsTurned};
ghost use Rattle.vd_rewrite.specs.Rewriting.{marked};
ghost use Rattle.vd_mux.specs.Walks.{made_of_all};

use crate::booleans::Truths;
use crate::walk::Walk;
use std::alloc::{AllocError, Global};
use vd_base::Items;
use vd_core::{Program, Slot, Stmt};
use vd_rewrite::{Made, Stop, fit, with_parts};

/// The program with selections in the place of its hidden branches, or none where it is the same: where some guard may be
/// another word than 0 and 1, nothing is hidden, or the new one would break a limit. `hidden` marks the slots that no host may read.
pub(crate) fn turn(
    alloc: Global,
    program: &Program,
    hidden: &[bool],
) -> Result<Option<Program>, AllocError>
    ensures { IfOk result (λ new. IsTurned (marked hidden.now) program.now new) }
{
    let form = program.form();
    let walk = Walk {
        alloc,
        hidden,
        slots: form.slots.as_slice(),
    };
    let truths = Truths {
        slots: form.slots.as_slice(),
    };
    if !truths.are_kept(form.body.as_slice()) {
        return Ok(None);
    }
    if !walk.have_hidden_if(form.body.as_slice()) {
        return Ok(None);
    }
    match made_anew(alloc, &walk, form.body.as_slice()) {
        Ok((slots, body)) => {
            if !fit(body.as_slice()) {
                return Ok(None);
            }
            let form = with_parts(alloc, form, slots, body)?;
            Ok(Some(Program::new(form)))
        }
        Err(Stop::TooMany) => Ok(None),
        Err(Stop::Memory(refused)) => Err(refused),
    }
}

fn made_anew(alloc: Global, walk: &Walk, body: &[Stmt]) -> Result<(Items<Slot>, Items<Stmt>), Stop>
    ensures slots { IfOk result (λ parts. parts.0 ≡ (made_of_all walk.now [] 0 body.now made_at_start).slots) }
    ensures body { IfOk result (λ parts. parts.1 ≡ (made_of_all walk.now [] 0 body.now made_at_start).body) }
    ensures stop { Stops result (made_of_all walk.now [] 0 body.now made_at_start) }
{
    let mut made = Made::at_start(alloc);
    walk.rewrite_all(&mut made, &[], 0, body)?;
    Ok(made.into_parts())
}
