//! The steps by which a flow check fails.

ghost use Rattle.std.specs.Prelude.{◌≡◌, ◌≤◌, IfOk, IfSome, length};
ghost use Rattle.vd_base.specs.Limits.{most_source_bytes};
ghost use Rattle.vd_core.specs.Named.{HasNames};
ghost use Rattle.vd_elaborate.specs.Normal.{normal_form};
ghost use Rattle.vd_diag_terminal.specs.FlowSteps.{AreFlowSteps, AreStepsOfCheck, AreStepsOfForm, AreStepsOfText, AreStepsOfTree, told_steps};

use crate::diag_flow::offsets::rule_offsets;
use crate::diag_flow::steps::way_remarks;
use std::alloc::{AllocError, Global};
use vd_base::Items;
use vd_base::limits::SOURCE_BYTES;
use vd_cmd_labels::{normal_program, read_source, resolve_source};
use vd_cmd_plan::Status;
use vd_constraints::{Check, System, constraints};
use vd_core::{NormalForm, Program, Source};
use vd_diag::{Remark, TellFault};
use vd_flow::{Step, way};
use vd_resolve::Resolved;

/// The steps of a way, as remarks.
fn told_way(alloc: Global, form: &NormalForm, way: &[Step]) -> Result<Items<Remark>, AllocError>
    ensures { IfOk result (λ remarks. remarks ≡ told_steps form.now way.now) }
{
    let offsets = rule_offsets(alloc, form)?;
    way_remarks(alloc, form, offsets.as_slice(), way)
}

/// The steps by which a check of a system fails, if it does.
fn steps_of_check(
    alloc: Global,
    form: &NormalForm,
    system: &System,
    check: &Check,
) -> Result<Option<Items<Remark>>, AllocError>
    ensures { IfOk result (λ steps. IfSome steps (AreStepsOfCheck form.now system.now check.now)) }
{
    let found = way(alloc, system, check)?;
    match found {
        Some(steps) => {
            let told = told_way(alloc, form, steps.as_slice())?;
            Ok(Some(told))
        }
        None => Ok(None),
    }
}

/// The steps by which the check of a program with this number fails, if it does.
fn steps_of_program(
    alloc: Global,
    program: &Program,
    number: u32,
) -> Result<Option<Items<Remark>>, AllocError>
    ensures { IfOk result (λ steps. IfSome steps (AreStepsOfForm number program.now)) }
{
    let collected = constraints(alloc, program)?;
    match collected.system.checks().get(number as usize) {
        Some(check) => steps_of_check(alloc, program.form(), &collected.system, check),
        None => Ok(None),
    }
}

/// The same of the program of a source that meets every rule.
fn steps_of_source(
    alloc: Global,
    source: Resolved,
    number: u32,
) -> Result<Option<Items<Remark>>, AllocError>
    ensures { IfOk result (λ steps. IfSome steps (AreStepsOfForm number (normal_form source))) }
{
    let program = normal_program(alloc, source)?;
    steps_of_program(alloc, &program, number)
}

/// The same of a tree, or why it is refused.
fn steps_of_tree(alloc: Global, tree: Source, number: u32) -> Result<Option<Items<Remark>>, Status>
    requires { HasNames tree }
    ensures { IfOk result (λ steps. IfSome steps (AreStepsOfTree number tree)) }
{
    let source = resolve_source(alloc, tree)?;
    let steps = steps_of_source(alloc, source, number)?;
    Ok(steps)
}

/// The same of a text that is not too long, or why it is refused.
fn steps_of_text(alloc: Global, bytes: &[u8], number: u32) -> Result<Option<Items<Remark>>, Status>
    requires { length bytes.now ≤ most_source_bytes }
    ensures { IfOk result (λ steps. IfSome steps (AreStepsOfText number bytes.now)) }
{
    let tree = read_source(alloc, bytes)?;
    steps_of_tree(alloc, tree, number)
}

/// The steps by which the check with this number fails in the program of a text, from where the label enters to the check: a place
/// and a sentence for each. None where the text is no source, or the check holds.
pub fn flow_steps(alloc: Global, bytes: &[u8], number: u32) -> Result<Items<Remark>, TellFault>
    ensures { IfOk result (AreFlowSteps bytes.now number) }
{
    if bytes.len() > SOURCE_BYTES as usize {
        return Ok(Items::new(alloc));
    }
    match steps_of_text(alloc, bytes, number) {
        Ok(Some(steps)) => Ok(steps),
        Err(Status::Memory) => Err(TellFault::Memory),
        _ => Ok(Items::new(alloc)),
    }
}
