//! The hosts whose inputs a host can learn of.

ghost use Rattle.std.specs.Prelude.{IfOk};
ghost use Rattle.vd_constraints.specs.Rules.{system_of};
ghost use Rattle.vd_constraints.specs.Satisfies.{Satisfies};
ghost use Rattle.vd_noninter.specs.NoninterLawsDependence.{AreReached, AreReadable, AreEnough};
ghost use Rattle.vd_noninter.specs.Hosts.{members};

use crate::reached::reach_along;
use crate::reader::Reader;
use crate::walk::edges;
use std::alloc::{AllocError, Global};
use vd_base::{HostId, HostSet};
use vd_constraints::Labels;
use vd_core::Program;

/// The hosts whose inputs can bear on this host's outputs in clear, outside of what is declassified to it, by labels
/// that keep all flow rules of the program. It may read each of them, and no other input matters to it.
///
/// It fails only where memory runs out.
pub fn depends(
    alloc: Global,
    program: &Program,
    labels: &Labels,
    host: HostId,
) -> Result<HostSet, AllocError>
    requires { Satisfies (system_of program.now) labels.now }
    ensures reached { IfOk result (λ hosts. AreReached program.now labels.now host (members hosts)) }
    ensures readable { IfOk result (λ hosts. AreReadable program.now host (members hosts)) }
    ensures enough { IfOk result (λ hosts. AreEnough program.now labels.now host (members hosts)) }
{
    let form = program.form();
    let reader = Reader::new(alloc, form, labels.slots.as_slice(), host)?;
    let edges = edges(alloc, &reader, form)?;
    let reached = reach_along(alloc, edges)?;
    Ok(reached.hosts())
}
