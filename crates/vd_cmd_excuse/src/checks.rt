//! What is looked at before anything is explained.

ghost use Rattle.std.specs.Prelude.{◌≡◌, OnOk, IfOk, ◌<◌, length, true, ℕ};
ghost use Rattle.vd_constraints.specs.declared.labels.Labels.{Labels};
ghost use Rattle.vd_base.specs.Holders.{proto_in};
ghost use Rattle.vd_projection.specs.Programs.{CanRunAt};
ghost use Rattle.vd_views.specs.Explained.{IsOfTwo};
ghost use Rattle.vd_backend_laws.specs.Parts.{has_back_end};
ghost use Rattle.vd_cmd_plan.specs.Plans.{Checks};
ghost use Rattle.vd_excuse.specs.Excuse.{AreAsked, IsExcused};
ghost use Rattle.vd_cmd_excuse.specs.Excusing.{as_free, as_two, commitment_in, excused_for};

use crate::runs::Runs;
use std::alloc::Global;
use vd_base::{HostId, Names, Proto};
use vd_cmd_plan::Status;
use vd_core::Program;
use vd_excuse::{ViewFault, excuse};
use vd_tape::Deals;

/// Refuses another number of hosts than two.
pub(crate) fn expect_two(names: &Names) -> Result<(), Status>
    ensures checks { Checks (as_two names.now) result }
    ensures two { OnOk result (length names.now ≡ 2) }
{
    let count = names.as_slice().len();
    if count == 2 {
        Ok(())
    } else {
        Err(Status::NotTwo(count))
    }
}

/// Whether a protocol is no commitment.
fn is_free(protocol: Proto) -> bool
    ensures { result ≡ has_back_end protocol }
{
    !matches!(protocol, Proto::Commit(_, _))
}

/// The first slot that stands at a commitment.
fn commitment_in(protocols: &[Proto]) -> Option<usize>
    ensures { result ≡ commitment_in protocols.now }
{
    protocols.iter().position(|protocol| !is_free(*protocol))
}

/// Refuses protocols with a commitment among them.
pub(crate) fn expect_free(protocols: &[Proto]) -> Result<(), Status>
    ensures checks { Checks (as_free (commitment_in protocols.now)) result }
    ensures free { OnOk result ((x : ℕ) → has_back_end (proto_in protocols.now x) ≡ true) }
{
    match commitment_in(protocols) {
        None => Ok(()),
        Some(slot) => Err(Status::HasCommit(slot)),
    }
}

/// The deals that explain the second inputs to the host, or why there are none.
pub(crate) fn excused(
    alloc: Global,
    program: &Program,
    protocols: &[Proto],
    host: HostId,
    runs: &Runs,
) -> Result<Deals, Status>
    requires host { host.0 < 2 }
    requires runnable { CanRunAt program.now protocols.now }
    requires asked { AreAsked runs.now.first runs.now.second runs.now.dealing.deals }
    ensures checks { (l : Labels) → IsOfTwo program.now l protocols.now →
        Checks (excused_for program.now l protocols.now host runs.now) result }
    ensures excused { (l : Labels) → IsOfTwo program.now l protocols.now →
        IfOk result (IsExcused program.now l protocols.now host runs.now.first runs.now.second runs.now.dealing.deals) }
{
    match excuse(
        alloc,
        program,
        protocols,
        host,
        &runs.first,
        &runs.second,
        &runs.dealing.deals,
    ) {
        Ok(deals) => Ok(deals),
        Err(ViewFault::Short(kind)) => Err(Status::DealShort(kind)),
        Err(ViewFault::Differ(place)) => Err(Status::ViewDiffers(place)),
        Err(ViewFault::Memory) => Err(Status::Memory),
    }
}
