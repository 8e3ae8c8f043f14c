//! The remark on a status that speaks of a file, made of what the status carries and of the bytes of that file.

ghost use Rattle.std.specs.Prelude.{◌≡◌, IfOk, Some};
ghost use Rattle.vd_diag.specs.Remarks.{at as remark_at};
ghost use Rattle.vd_diag_source.specs.Rules.{IsRuleRemark};
ghost use Rattle.vd_diag_terminal.specs.Programs.{SaysOne};
ghost use Rattle.vd_diag_terminal.specs.Remarks as remarks;

use crate::diag_flow::flow_remark;
use crate::programs::{remark_on_assignment, remark_on_search};
use std::alloc::Global;
use vd_base::Bytes;
use vd_cmd_plan::{FlowFault, Status};
use vd_diag::{Remark, TellFault, host_sentence, inputs_sentence, schedule_sentence, token_at};
use vd_diag_source::{rule_remark, syntax_remark};
use vd_report::ReadFault;
use vd_resolve::NameFault;

/// A sentence on what stands at this offset.
fn at(offset: u32, sentence: Bytes) -> Remark
    ensures { result ≡ remark_at offset sentence }
{
    Remark {
        offset: Some(offset),
        sentence,
    }
}

/// The remark on a fault of inputs: what is wrong with the token that cannot stand where it stands.
fn remark_on_inputs(
    alloc: Global,
    bytes: &[u8],
    fault: ReadFault,
) -> Result<Option<Remark>, TellFault>
    ensures { IfOk result (SaysOne (remarks.IsInputsRemark bytes.now) fault) }
{
    match fault {
        ReadFault::Text(offset) => {
            let sentence = Bytes::from_slice(alloc, inputs_sentence(token_at(bytes, offset)))?;
            Ok(Some(at(offset, sentence)))
        }
        ReadFault::UnknownHost(offset) => {
            let sentence = host_sentence(alloc, bytes, offset)?;
            Ok(Some(at(offset, sentence)))
        }
        ReadFault::Memory => Err(TellFault::Memory),
    }
}

/// The remark on a fault of a schedule, and what a schedule has.
fn remark_on_schedule(
    alloc: Global,
    bytes: &[u8],
    fault: ReadFault,
) -> Result<Option<Remark>, TellFault>
    ensures { IfOk result (SaysOne (remarks.IsScheduleRemark bytes.now) fault) }
{
    match fault {
        ReadFault::Text(offset) => {
            let sentence = Bytes::from_slice(alloc, schedule_sentence().as_bytes())?;
            Ok(Some(at(offset, sentence)))
        }
        ReadFault::UnknownHost(offset) => {
            let sentence = host_sentence(alloc, bytes, offset)?;
            Ok(Some(at(offset, sentence)))
        }
        ReadFault::Memory => Err(TellFault::Memory),
    }
}

/// The remark on a fault of names, kinds or sizes.
fn remark_on_rule(
    alloc: Global,
    bytes: &[u8],
    fault: NameFault,
) -> Result<Option<Remark>, TellFault>
    ensures { IfOk result (SaysOne (IsRuleRemark bytes.now) fault) }
{
    let remark = rule_remark(alloc, bytes, fault)?;
    Ok(Some(remark))
}

/// The remark on a flow that is not allowed.
fn remark_on_flow(alloc: Global, fault: &FlowFault) -> Result<Option<Remark>, TellFault>
    ensures { IfOk result (λ remark. remark ≡ Some (remarks.remark_of_flow fault.now)) }
{
    let remark = flow_remark(
        alloc,
        &fault.principals,
        &fault.hosts,
        &fault.check,
        fault.origin,
        &fault.asked,
    )?;
    Ok(Some(remark))
}

/// The remark on a status that speaks of the file with these bytes, if there is one.
pub fn remark_on(alloc: Global, bytes: &[u8], status: &Status) -> Result<Option<Remark>, TellFault>
    ensures { IfOk result (remarks.IsRemarkOn bytes.now status.now) }
{
    match status {
        Status::Syntax(fault) => syntax_remark(alloc, bytes, *fault),
        Status::Names(fault) => remark_on_rule(alloc, bytes, *fault),
        Status::Flow(fault) => remark_on_flow(alloc, fault),
        Status::NoAssignment(found) => remark_on_assignment(alloc, found),
        Status::Spent(budget, found) => remark_on_search(alloc, found, *budget),
        Status::InputText(fault) => remark_on_inputs(alloc, bytes, *fault),
        Status::ScheduleText(fault) => remark_on_schedule(alloc, bytes, *fault),
        _ => Ok(None),
    }
}
