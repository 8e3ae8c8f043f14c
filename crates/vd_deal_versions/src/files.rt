//! Deal files of both versions.

ghost use Rattle.std.specs.Prelude.{◌≡◌, ◌≤◌, ◌<◌, Ok, IfOk, IfErr};
ghost use Rattle.vd_base.specs.Limits.{most_hosts};
ghost use Rattle.vd_deal_versions.specs.Text.{IsDealtOf};
ghost use Rattle.vd_deal_versions.specs.Reading.{dealt_read};
ghost use Rattle.vd_base_codec.specs.Outcome.{IsFaultOf};
ghost use Rattle.vd_deal_versions.specs.Outcome.{Accepts, Refuses};

use crate::dealt::Dealt;
use crate::reading::read_file;
use std::alloc::Global;
use vd_base::{FileFault, HostId};
use vd_base_codec::{CodecFault, Cursor, offset};

/// The deal of one host among so many, from its file of either version.
///
/// Refuses bytes that are no such file, with the first offset at which they go on as none does, and fails where memory runs out.
pub fn read_dealt(alloc: Global, bytes: &[u8], hosts: u8, me: HostId) -> Result<Dealt, FileFault>
    requires few { hosts ≤ most_hosts }
    requires declared { me.0 < hosts }
    ensures dealt { IfOk result (IsDealtOf hosts me.0) }
    ensures given { Accepts hosts me.0 bytes.now result }
    ensures refused { Refuses hosts me.0 bytes.now result }
    ensures ok { IfOk result (λ dealt. dealt_read hosts me.0 bytes.now ≡ Ok dealt) }
    ensures err { IfErr result (λ fault. IsFaultOf (dealt_read hosts me.0 bytes.now) fault) }
{
    read_bytes(alloc, bytes, hosts, me)
}

/// The deal that is read from left to right.
fn read_bytes(alloc: Global, bytes: &[u8], hosts: u8, me: HostId) -> Result<Dealt, FileFault>
    requires few { hosts ≤ most_hosts }
    requires declared { me.0 < hosts }
    ensures ok { IfOk result (λ dealt. dealt_read hosts me.0 bytes.now ≡ Ok dealt) }
    ensures err { IfErr result (λ fault. IsFaultOf (dealt_read hosts me.0 bytes.now) fault) }
{
    let mut cursor = Cursor::new(bytes);
    match read_file(alloc, &mut cursor, bytes, hosts, me) {
        Ok(dealt) => Ok(dealt),
        Err(CodecFault::Stopped) => Err(FileFault::Text(offset(bytes.len() - cursor.len()))),
        Err(CodecFault::Memory) => Err(FileFault::Memory),
    }
}
