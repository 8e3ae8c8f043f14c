//! Both runs of a program, and what explains the second one.

ghost use Rattle.std.specs.Prelude.{◌≡◌, ◌<◌, IfOk};
ghost use Rattle.vd_constraints.specs.declared.labels.Labels.{Labels};
ghost use Rattle.vd_noninter_protocols.specs.Difference.{view_difference as difference};
ghost use Rattle.vd_projection.specs.Programs.{CanRunAt};
ghost use Rattle.vd_views.specs.Explained.{IsOfTwo, plan_of};
ghost use Rattle.vd_excuse.specs.Excuse.{AreAsked, Excuses, HasWalked, Refuses};

use crate::fault::ViewFault;
use crate::lines::steps_at;
use std::alloc::{AllocError, Global};
use vd_base::{HostId, Inputs, Proto};
use vd_core::Program;
use vd_excuse_walk::{Walked, walk};
use vd_noninter_protocols::{Listener, view_difference};
use vd_tape::Deals;

/// Deals that explain other inputs to a host: they are consistent, as long as the deals of the first inputs, and the host's own is the
/// same; and by them it sees of the second inputs what it sees of the first. The protocols are a valid assignment, none of them a
/// commitment. The first run takes inputs and items past the end of a list as zeros.
///
/// It is refused where the first run takes more items of a kind than a host was dealt, the kinds being looked at in their order; and then
/// where the host knows other words of the second inputs than of the first.
pub fn excuse(
    alloc: Global,
    program: &Program,
    protocols: &[Proto],
    host: HostId,
    first: &Inputs,
    second: &Inputs,
    deals: &Deals,
) -> Result<Deals, ViewFault>
    requires host { host.0 < 2 }
    requires runnable { CanRunAt program.now protocols.now }
    requires asked { AreAsked first.now second.now deals.now }
    ensures ok { Excuses program.now protocols.now host first.now second.now deals.now result }
    ensures err { Refuses program.now protocols.now host first.now second.now deals.now result }
{
    let walked = walk_both(alloc, program, protocols, host, first, second, deals)?;
    if let Some(kind) = walked.short {
        return Err(ViewFault::Short(kind));
    }
    if let Some(place) = difference(alloc, program, protocols, host, first, second)? {
        return Err(ViewFault::Differ(place));
    }
    Ok(walked.deals)
}

/// Goes along both runs.
fn walk_both(
    alloc: Global,
    program: &Program,
    protocols: &[Proto],
    host: HostId,
    first: &Inputs,
    second: &Inputs,
    deals: &Deals,
) -> Result<Walked, AllocError>
    requires host { host.0 < 2 }
    requires runnable { CanRunAt program.now protocols.now }
    requires asked { AreAsked first.now second.now deals.now }
    ensures { IfOk result (λ walked. (l : Labels) → IsOfTwo program.now l protocols.now →
        HasWalked host (plan_of program.now protocols.now) first.now second.now deals.now walked) }
{
    let steps = steps_at(alloc, program, protocols)?;
    walk(alloc, host, &steps, first, second, deals)
}

/// The first place at which what the host knows of the two inputs differs.
fn difference(
    alloc: Global,
    program: &Program,
    protocols: &[Proto],
    host: HostId,
    first: &Inputs,
    second: &Inputs,
) -> Result<Option<usize>, AllocError>
    ensures { IfOk result (λ place. (l : Labels) →
        place ≡ difference program.now l protocols.now host first.now second.now) }
{
    let listener = Listener::new(protocols, host);
    view_difference(alloc, program.form(), &listener, first, second)
}
