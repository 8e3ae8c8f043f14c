//! The remark on a program for which no choice of protocols is valid.

ghost use Rattle.std.specs.Prelude.{◌≡◌, IfOk};
ghost use Rattle.vd_diag_terminal.specs.DiagChoiceRemarks as remarks;
ghost use Rattle.vd_space.specs.WellFormed.{AreProtocols};

use crate::diag_choice::bare::first_bare;
use crate::diag_choice::stuck_remarks::stuck_remark;
use crate::diag_choice::texts::{bare_sentence, slot_name, slot_offset};
use std::alloc::{AllocError, Global};
use vd_base::Proto;
use vd_core::{NormalForm, Program};
use vd_diag::Remark;
use vd_formula::Label;
use vd_space::Problem;
use vd_space_api::Space;

/// The remark on a program for whose space no choice is valid: of the first slot that has no candidate, else of the first use,
/// index or guard for which no places are left, else of the whole file.
pub fn no_assignment_remark(
    alloc: Global,
    program: &Program,
    space: &Space,
) -> Result<Remark, AllocError>
    ensures { IfOk result (remarks.IsNoAssignmentRemark program.now space.now) }
{
    remark_on(alloc, program.form(), space.problem(), space.list())
}

/// The remark on a let-normal form for whose problem no choice is valid. `list` has all protocols.
fn remark_on(
    alloc: Global,
    form: &NormalForm,
    problem: &Problem,
    list: &[Proto],
) -> Result<Remark, AllocError>
    requires { AreProtocols problem.now list.now }
    ensures { IfOk result (remarks.IsNoAssignmentRemark form.now problem.now) }
{
    match first_bare(problem, list) {
        Some(number) => {
            let making = problem.slots.as_slice()[number];
            bare_remark(alloc, form, number, &making.label)
        }
        None => stuck_remark(alloc, form, problem, list),
    }
}

/// The remark on the slot with this number and label.
fn bare_remark(
    alloc: Global,
    form: &NormalForm,
    number: usize,
    label: &Label,
) -> Result<Remark, AllocError>
    ensures { IfOk result (λ remark. remark ≡ remarks.bare_remark form.now number label.now) }
{
    let name = slot_name(form, number);
    let sentence = bare_sentence(alloc, &form.principals, number, name, label)?;
    Ok(Remark {
        offset: Some(slot_offset(form, number)),
        sentence,
    })
}
