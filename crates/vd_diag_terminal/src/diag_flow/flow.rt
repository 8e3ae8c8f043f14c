//! The remark on a program that has no labelling.

ghost use Rattle.std.specs.Prelude.{◌≡◌, IfOk};
ghost use Rattle.vd_diag_terminal.specs.Flow.{flow_remark};

use crate::diag_flow::sentences::flow_sentence;
use std::alloc::{AllocError, Global};
use vd_base::Names;
use vd_constraints::{Check, Origin};
use vd_diag::Remark;
use vd_formula::Formula;

/// The remark on the first check of a program that fails at the least solution of its rules. The program is over these principals
/// and hosts, `origin` asks for the check, and its constant would have to act for the formula `asked`.
///
/// It stands at the statement of the check, and says which host or written label may not read, or does not answer for, what,
/// and with which words the source would be another.
pub fn flow_remark(
    alloc: Global,
    principals: &Names,
    hosts: &Names,
    check: &Check,
    origin: Origin,
    asked: &Formula,
) -> Result<Remark, AllocError>
    ensures { IfOk result (λ remark. remark ≡ flow_remark principals.now hosts.now check.now origin asked.now) }
{
    let sentence = flow_sentence(alloc, principals, hosts, check, origin, asked)?;
    Ok(Remark {
        offset: Some(check.offset),
        sentence,
    })
}
