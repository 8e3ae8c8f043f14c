//! The deal of a file of either version alone.

ghost use Rattle.std.specs.Prelude.{◌≤◌, ◌<◌, IfOk};
ghost use Rattle.vd_base.specs.Limits.{most_hosts};
ghost use Rattle.vd_tape.specs.Text.{IsDealOf};
ghost use Rattle.vd_deal_versions.specs.Plain.{Accepts, Refuses};

use crate::files::read_dealt;
use std::alloc::Global;
use vd_base::{FileFault, HostId};
use vd_tape::Deal;

/// The deal of one host among so many, from its file of either version, without what the host knows of the dealing besides.
///
/// Refuses bytes that are no such file, with the first offset at which they go on as none does, and fails where memory runs out.
pub fn read_plain_deal(
    alloc: Global,
    bytes: &[u8],
    hosts: u8,
    me: HostId,
) -> Result<Deal, FileFault>
    requires few { hosts ≤ most_hosts }
    requires declared { me.0 < hosts }
    ensures deal { IfOk result (IsDealOf hosts me.0) }
    ensures given { Accepts hosts me.0 bytes.now result }
    ensures refused { Refuses hosts me.0 bytes.now result }
{
    match read_dealt(alloc, bytes, hosts, me) {
        Ok(dealt) => Ok(dealt.deal),
        Err(fault) => Err(fault),
    }
}
