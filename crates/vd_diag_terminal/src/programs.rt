//! Remarks on a program for which a search found no protocols.

ghost use Rattle.std.specs.Prelude.{IfOk};
ghost use Rattle.vd_diag_terminal.specs.Programs as programs;

use crate::diag_branches::branch_remark;
use crate::diag_choice::{no_assignment_remark, search_sentence, space_for};
use std::alloc::Global;
use vd_cmd_plan::Labelled;
use vd_diag::{Remark, TellFault};

/// The remark on the slots of a program for which no choice of protocols is valid.
fn remark_on_slots(alloc: Global, found: &Labelled) -> Result<Option<Remark>, TellFault>
    ensures { IfOk result (programs.IsSlotRemark found.now) }
{
    let program = found.program();
    let labels = found.labels();
    let space = space_for(alloc, program, labels)?;
    let remark = no_assignment_remark(alloc, program, &space)?;
    Ok(Some(remark))
}

/// The remark on a program for which no choice of protocols is valid: on a branch that cannot be hidden, or on its slots.
pub(crate) fn remark_on_assignment(
    alloc: Global,
    found: &Labelled,
) -> Result<Option<Remark>, TellFault>
    ensures { IfOk result (programs.IsAssignmentRemark found.now) }
{
    let program = found.program();
    let labels = found.labels();
    let hidden = branch_remark(alloc, program, labels)?;
    match hidden {
        Some(remark) => Ok(Some(remark)),
        None => remark_on_slots(alloc, found),
    }
}

/// The remark on a search for protocols for a program, which had this budget.
pub(crate) fn remark_on_search(
    alloc: Global,
    found: &Labelled,
    budget: u32,
) -> Result<Option<Remark>, TellFault>
    ensures { IfOk result (programs.IsSearchRemark budget found.now) }
{
    let program = found.program();
    let labels = found.labels();
    let space = space_for(alloc, program, labels)?;
    let sentence = search_sentence(alloc, &space, budget)?;
    Ok(Some(Remark {
        offset: None,
        sentence,
    }))
}
