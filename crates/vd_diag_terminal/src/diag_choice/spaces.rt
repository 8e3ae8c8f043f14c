//! The space of choices for a program.

ghost use Rattle.std.specs.Prelude.{IfOk};
ghost use Rattle.vd_constraints.specs.Rules.{system_of};
ghost use Rattle.vd_constraints.specs.Satisfies.{IsLeast};
ghost use Rattle.vd_diag_terminal.specs.Spaces.{IsSpaceFor};

use std::alloc::{AllocError, Global};
use vd_constraints::Labels;
use vd_core::Program;
use vd_space_api::Space;

/// The space of choices for a program under its least labels.
pub fn space_for(alloc: Global, program: &Program, labels: &Labels) -> Result<Space, AllocError>
    requires { IsLeast (system_of program.now) labels.now }
    ensures { IfOk result (IsSpaceFor program.now labels.now) }
{
    let space = Space::of(alloc, program, labels)?;
    Ok(space)
}
