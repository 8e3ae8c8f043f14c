//! The command `labels`.

ghost use Rattle.std.specs.Prelude.{◌≡◌, ◌<◌, true, [], length, IfOk};
ghost use Rattle.vd_constraints.specs.Rules.{system_of};
ghost use Rattle.vd_constraints.specs.Satisfies.{IsLeast};
ghost use Rattle.vd_outside.specs.Files.{FilesView};
ghost use Rattle.vd_cmd_plan.specs.Plans.{Checks, Computes, Executes, ended};
ghost use Rattle.vd_cmd_labels.specs.Outcomes.{LabelOutcomes};
ghost use Rattle.vd_cmd_labels.specs.Labelling.{fault_of, labels_of, labels_text as text_of_labels, program_plan, labelled_plan, ExecutesLabels};

use crate::sources::{load_source, normal_program};
use std::alloc::{AllocError, Global};
use vd_base::{Items, Name, Names};
use vd_cmd_plan::{Answer, FlowFault, Status};
use vd_constraints::{Check, Labels, Origin, constraints};
use vd_core::{NormalForm, Program};
use vd_outside::Files;
use vd_report::labels_text;
use vd_resolve::Resolved;
use vd_solver::{first_failing, solve_rules};

/// The least labels of a program, or the first check that fails.
pub fn least_labels(alloc: Global, program: &Program) -> Result<Labels, Status>
    ensures checks { (least : LabelOutcomes) → Checks (labels_of least program.now) result }
    ensures least { IfOk result (IsLeast (system_of program.now)) }
{
    let collected = constraints(alloc, program)?;
    let checks = collected.system.checks();
    let origins = collected.origins.as_slice();
    let solution = solve_rules(alloc, &collected.system)?;
    match first_failing(&collected.system, &solution) {
        None => Ok(solution),
        Some(number) => {
            let fault = flow_fault(alloc, program.form(), checks, origins, &solution, number)?;
            Err(Status::Flow(fault))
        }
    }
}

/// What is told of the check of a program with this number, which fails at this solution of the rules.
fn flow_fault(
    alloc: Global,
    form: &NormalForm,
    checks: &[Check],
    origins: &[Origin],
    solution: &Labels,
    number: u32,
) -> Result<FlowFault, AllocError>
    requires check { number < length checks.now }
    requires origin { number < length origins.now }
    ensures { IfOk result (λ fault. fault ≡ fault_of form.now solution.now checks.now origins.now number) }
{
    let check = checks[number as usize];
    let principals = copy_of(alloc, &form.principals)?;
    let hosts = copy_of(alloc, &form.hosts)?;
    Ok(FlowFault {
        number,
        check,
        origin: origins[number as usize],
        asked: solution.part(check.part),
        principals,
        hosts,
    })
}

/// A copy of these names.
fn copy_of(alloc: Global, names: &Names) -> Result<Names, AllocError>
    ensures { IfOk result (λ copy. copy ≡ names.now) }
{
    let mut copy = Names::new(alloc);
    for name in names.as_slice() {
        let name = Name::from_slice(alloc, name.as_slice())?;
        copy.push(name)?;
    }
    Ok(copy)
}

/// Prints the labels of a program's slots.
fn labels_answer(alloc: Global, program: &Program, labels: &Labels) -> Result<Answer, Status>
    ensures { Computes (ended [] (text_of_labels program.now labels.now)) result }
{
    let printed = labels_text(alloc, program, labels)?;
    Ok(Answer {
        status: Status::Ended,
        stores: Items::new(alloc),
        printed,
    })
}

/// What `labels` does with a program.
fn label_program(alloc: Global, program: &Program) -> Result<Answer, Status>
    ensures { (least : LabelOutcomes) (files : FilesView) → Executes true (program_plan least program.now) files files result }
{
    let labels = least_labels(alloc, program)?;
    labels_answer(alloc, program, &labels)
}

/// What `labels` does with a source that meets every rule.
fn label_source(alloc: Global, source: Resolved) -> Result<Answer, Status>
    ensures { (least : LabelOutcomes) (files : FilesView) → Executes true (labelled_plan least source) files files result }
{
    let program = normal_program(alloc, source)?;
    label_program(alloc, &program)
}

/// The command `labels`: the least label of each slot of the let-normal program.
pub fn labels<F: Files>(alloc: Global, files: &mut F, source: &str) -> Result<Answer, Status>
    ensures { ExecutesLabels source.now (F.view files.old) (F.view files.new) result }
{
    let resolved = load_source(alloc, files, source)?;
    label_source(alloc, resolved)
}
