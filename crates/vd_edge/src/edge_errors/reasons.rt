//! Why a call of the outside failed, as a person is told.

use std::alloc::Global;
use std::io::Error;

/// What is told of a call that failed at a name or an address. Where there is no memory for it, nothing is told.
pub fn reason_of(alloc: Global, call: &str, at: &str, error: &Error) -> Option<String> {
    format!(in alloc; "{call} {at}: {error}").ok()
}
