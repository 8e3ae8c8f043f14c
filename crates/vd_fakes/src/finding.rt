//! What stands in files in memory.

ghost use Rattle.std.specs.Prelude.{◌≡◌, IfOk};
ghost use Rattle.vd_fakes.specs.Found.{found};
ghost use Rattle.vd_outside.specs.Files.{fetched};

use std::alloc::{AllocError, Global};
use vd_base::Bytes;
use vd_outside::{FetchFault, Stored};

/// A copy of what stands at a name.
pub(crate) fn find(alloc: Global, files: &[Stored], name: &str) -> Result<Option<Bytes>, AllocError>
    ensures { IfOk result (λ content. content ≡ found files.now name.now) }
{
    for file in files {
        if file.name.as_str().as_bytes() == name.as_bytes() {
            let content = Bytes::from_slice(alloc, file.content.as_slice())?;
            return Ok(Some(content));
        }
    }
    Ok(None)
}

/// What was found, if it is no longer than the limit.
pub(crate) fn limited(found: Option<Bytes>, limit: u32) -> Result<Bytes, FetchFault>
    ensures { result ≡ fetched found limit }
{
    match found {
        Some(bytes) => {
            if (limit as usize) < bytes.len() {
                Err(FetchFault::TooLong)
            } else {
                Ok(bytes)
            }
        }
        None => Err(FetchFault::Failed),
    }
}
