//! What the hosts of a program take.

ghost use Rattle.std.specs.Prelude.{◌≡◌, ◌≤◌, IfOk, length};
ghost use Rattle.vd_base.specs.Limits.{most_hosts};
ghost use Rattle.vd_projection.specs.Programs.{CanRunAt};
ghost use Rattle.vd_deal_needs.specs.Enough.{needs_for};

use crate::{HostNeeds, needs};
use std::alloc::{AllocError, Global};
use vd_base::{Items, Proto};
use vd_core::Program;
use vd_projection::split;

/// What each host of a program takes at most from each of its lists, in host order, at a valid assignment of
/// protocols to its slots.
pub fn needs_of_program(
    alloc: Global,
    program: &Program,
    protocols: &[Proto],
) -> Result<Items<HostNeeds>, AllocError>
    requires { CanRunAt program.now protocols.now }
    ensures needs { IfOk result (λ needs. needs ≡ needs_for program.now protocols.now) }
    ensures few { IfOk result (λ needs. length needs ≤ most_hosts) }
{
    let codes = split(alloc, program, protocols)?;
    needs(alloc, codes.as_slice())
}
