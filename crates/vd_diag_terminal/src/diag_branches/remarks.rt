//! The remark on a branch that cannot be hidden.

ghost use Rattle.std.specs.Prelude.{IfOk};
ghost use Rattle.vd_constraints.specs.Rules.{system_of};
ghost use Rattle.vd_constraints.specs.Satisfies.{IsLeast, Satisfies};
ghost use Rattle.vd_diag_terminal.specs.DiagBranchesPhrases.{IsBranchRemark, IsHiddenRemark};

use crate::diag_branches::hidden::first_branch;
use crate::diag_branches::phrases::sentence;
use std::alloc::{AllocError, Global};
use vd_constraints::Labels;
use vd_core::Program;
use vd_diag::Remark;
use vd_mux::hidden_guards;

/// The remark on the first branch of a program whose guard no host may read and that cannot become a selection, under these labels.
/// None where there is no such branch.
fn hidden_remark(
    alloc: Global,
    program: &Program,
    labels: &Labels,
) -> Result<Option<Remark>, AllocError>
    requires { Satisfies (system_of program.now) labels.now }
    ensures { IfOk result (IsHiddenRemark program.now labels.now) }
{
    let marks = hidden_guards(alloc, program, labels)?;
    match first_branch(marks.as_slice(), program.form().body.as_slice()) {
        None => Ok(None),
        Some(branch) => {
            let sentence = sentence(alloc, branch.barrier)?;
            Ok(Some(Remark {
                offset: Some(branch.offset),
                sentence,
            }))
        }
    }
}

/// The remark on the first branch of a program that no host may read and that cannot be hidden, under the program's least labels. None
/// where there is no such branch.
pub fn branch_remark(
    alloc: Global,
    program: &Program,
    labels: &Labels,
) -> Result<Option<Remark>, AllocError>
    requires { IsLeast (system_of program.now) labels.now }
    ensures { IfOk result (IsBranchRemark program.now labels.now) }
{
    let remark = hidden_remark(alloc, program, labels)?;
    Ok(remark)
}
