//! Files that are fetched.

ghost use Rattle.vd_cmd_plan.specs.Loads.{Loads};

use crate::Status;
use std::alloc::Global;
use vd_base::{Bytes, Text};
use vd_outside::{FetchFault, Files};

/// Fetches a file, and names it where that fails.
pub fn load<F: Files>(alloc: Global, files: &mut F, name: &str, limit: u32) -> Result<Bytes, Status>
    ensures loads { Loads name.now limit (F.view files.old) (F.view files.new) result }
{
    let kept = Text::copy_of(alloc, name)?;
    match files.fetch(name, limit) {
        Ok(bytes) => Ok(bytes),
        Err(FetchFault::TooLong) => Err(Status::TooLong(kept, limit)),
        Err(FetchFault::Failed) => Err(Status::ReadFault(kept)),
        Err(FetchFault::Memory) => Err(Status::Memory),
    }
}
