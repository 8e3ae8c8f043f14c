//! The hosts whose inputs can bear on a host's outputs.

ghost use Rattle.std.specs.Prelude.{IfOk};
ghost use Rattle.vd_noninter.specs.Hosts.{members};
ghost use Rattle.vd_noninter.specs.IntegrityLawsInfluence.{AreInfluences};

use crate::influence_walk::influence_edges;
use crate::reached::reach_along;
use std::alloc::{AllocError, Global};
use vd_base::{HostId, HostSet};
use vd_core::Program;

/// The hosts whose inputs can bear on this host's outputs, declassifications included: those that do so through endorsements
/// too, or where `passed` is false those that do so otherwise.
///
/// It fails only where memory runs out.
pub fn influences(
    alloc: Global,
    program: &Program,
    host: HostId,
    passed: bool,
) -> Result<HostSet, AllocError>
    ensures { IfOk result (λ hosts. AreInfluences passed program.now host (members hosts)) }
{
    let form = program.form();
    let edges = influence_edges(alloc, passed, host, form)?;
    let reached = reach_along(alloc, edges)?;
    Ok(reached.hosts())
}
