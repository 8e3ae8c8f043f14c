//! The joint code of a program, as steps.

ghost use Rattle.std.specs.Prelude.{IfOk};
ghost use Rattle.vd_constraints.specs.declared.labels.Labels.{Labels};
ghost use Rattle.vd_projection.specs.Programs.{CanRunAt};
ghost use Rattle.vd_views.specs.Explained.{IsOfTwo, plan_of};
ghost use Rattle.vd_excuse.specs.Claims.{LeadTo};

use crate::equivocation_steps::steps_of;
use std::alloc::{AllocError, Global};
use vd_base::{Items, Proto};
use vd_core::Program;
use vd_excuse_walk::Step;
use vd_projection::joint_lines;
use vd_views::pairs_are_read_off;

/// The steps of all hosts of a program at a valid assignment of protocols to its slots.
pub(crate) fn steps_at(
    alloc: Global,
    program: &Program,
    protocols: &[Proto],
) -> Result<Items<Step>, AllocError>
    requires { CanRunAt program.now protocols.now }
    ensures { IfOk result (λ steps. (l : Labels) → IsOfTwo program.now l protocols.now →
        LeadTo steps (plan_of program.now protocols.now)) }
{
    pairs_are_read_off();
    let lines = joint_lines(alloc, program, protocols)?;
    steps_of(alloc, &lines)
}
