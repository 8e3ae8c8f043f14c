//! The space of choices for a program.

ghost use Rattle.std.specs.Prelude.{◌<◌, IfOk, length};
ghost use Rattle.vd_constraints.specs.declared.labels.Labels.{Labels as Labellings};
ghost use Rattle.vd_cmd_labels.specs.Outcomes.{LabelOutcomes};
ghost use Rattle.vd_space.specs.Arcs.{arcs};
ghost use Rattle.vd_cmd_plan.specs.Plans.{Checks};
ghost use Rattle.vd_cmd_choose.specs.Problems.{IsProblemOf, problem_for};
ghost use Rattle.vd_space.specs.Labelled.{HasLabels};
ghost use Rattle.vd_space.specs.Reading.{problem_of};

use std::alloc::Global;
use vd_cmd_labels::least_labels;
use vd_cmd_plan::Status;
use vd_core::Program;
use vd_space_api::Space;

/// The space of choices for a program under its least labels, or the first flow check that fails.
pub fn least_space(alloc: Global, program: &Program) -> Result<Space, Status>
    ensures checks { (least : LabelOutcomes) → Checks (problem_for least program.now) result }
    ensures least { IfOk result (IsProblemOf program.now) }
    ensures few_arcs { IfOk result (λ space. length (arcs space) < 4294967296) }
{
    let labels = least_labels(alloc, program)?;
    arcs_are_few(program);
    Ok(Space::of(alloc, program, &labels)?)
}

/// Whatever the labels of a program are, its problem has few arcs.
fn arcs_are_few(program: &Program)
    ensures { (labels : Labellings) → HasLabels program.now labels → length (arcs (problem_of program.now labels)) < 4294967296 }
{
    program.form();
}
