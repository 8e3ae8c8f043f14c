//! Where marks stand.

ghost use Rattle.std.specs.Prelude.{◌≡◌, ◌≤◌, length, take, IfOk};
ghost use Rattle.vd_outside.specs.Places.{folder_of, mark_at};

use std::alloc::{AllocError, Global};
use vd_base::Bytes;

/// How much of a file's name is that of its folder: all up to its last slash.
fn folder_length(name: &[u8]) -> usize
    ensures within { result ≤ length name.now }
    ensures folder { take result name.now ≡ folder_of name.now }
{
    let mut end = name.len();
    while end > 0 && name[end - 1] != b'/' {
        end -= 1;
    }
    end
}

/// The name of a mark beside a file.
pub fn mark_at(alloc: Global, beside: &str, name: &[u8]) -> Result<Bytes, AllocError>
    ensures { IfOk result (λ place. place ≡ mark_at beside.now name.now) }
{
    let beside = beside.as_bytes();
    let mut place = Bytes::from_slice(alloc, &beside[..folder_length(beside)])?;
    place.extend_from_slice(name)?;
    Ok(place)
}
