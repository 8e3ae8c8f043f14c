//! The stores of an answer, and the bytes that it prints.

ghost use Rattle.std.specs.List.{flat_map};
ghost use Rattle.vd_cmd_plan.specs.Plans.{IsGiven};
ghost use Rattle.vd_outside.specs.Sink.{WritesAll};
ghost use Rattle.vd_cmd_plan.specs.Deliver.{StoresOne, StoresAll, Delivers};

use crate::{Answer, Status};
use vd_base::{CallFault, Failed};
use vd_outside::{Files, Sink, Stored, write_all};

/// Writes these parts, one behind the other.
pub(crate) fn write_parts<O: Sink>(out: &mut O, parts: &[&[u8]]) -> Result<(), Failed>
    ensures { WritesAll (flat_map (λ part. part.now) parts.now) (O.view out.old) (O.view out.new) result }
{
    for part in parts {
        write_all(out, part)?;
    }
    Ok(())
}

/// Stores one file.
fn store<F: Files>(files: &mut F, file: &Stored) -> Result<(), Status>
    ensures { StoresOne file.now (F.view files.old) (F.view files.new) result }
{
    match files.store(file.name.as_str(), file.content.as_slice()) {
        Ok(()) => Ok(()),
        Err(CallFault::Failed) => Err(Status::WriteFault),
        Err(CallFault::Memory) => Err(Status::Memory),
    }
}

/// Stores files in order.
pub fn store_all<F: Files>(files: &mut F, added: &[Stored]) -> Result<(), Status>
    ensures { StoresAll added.now (F.view files.old) (F.view files.new) result }
{
    for file in added {
        store(files, file)?;
    }
    Ok(())
}

/// Stores what the answer stores, and then writes what it prints.
pub(crate) fn deliver<F: Files, O: Sink>(answer: Answer, files: &mut F, out: &mut O) -> Status
    requires { IsGiven answer.status answer.printed }
    ensures { Delivers answer (F.view files.old) (F.view files.new) (O.view out.old) (O.view out.new) result }
{
    match store_all(files, answer.stores.as_slice()) {
        Err(status) => status,
        Ok(()) => match write_all(out, answer.printed.as_slice()) {
            Err(Failed) => Status::WriteFault,
            Ok(()) => answer.status,
        },
    }
}
