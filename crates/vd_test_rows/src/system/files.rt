use std::alloc::{AllocError, Global};
use std::io::{self, Write};
use std::rt::Files as Disk;
use vd_base::{Bytes, CallFault};
use vd_edge::{RealFiles, SystemDirectory};
use vd_outside::{FetchFault, Files};

/// So many bytes, none of which is the one before it.
fn long_text(alloc: Global, length: u32) -> Result<Vec<u8>, AllocError> {
    let mut text = Vec::new(alloc);
    for place in 0..length {
        text.push((place % 251) as u8)?;
    }
    Ok(text)
}

/// Prints how a fetch ended, and whether its bytes are these.
fn print_fetch<W: Write>(
    to: &mut W,
    fetched: Result<Bytes, FetchFault>,
    wanted: &[u8],
) -> io::Result<()> {
    match fetched {
        Ok(bytes) => {
            let same = bytes.as_slice() == wanted;
            writeln!(to, " fetched, the same: {same}")
        }
        Err(fault) => writeln!(to, " {fault:?}"),
    }
}

/// Prints how a store ended.
fn print_store<W: Write>(to: &mut W, stored: Result<(), CallFault>) -> io::Result<()> {
    writeln!(to, " store: {stored:?}")
}

/// Stores these bytes and fetches them again with this limit.
fn print_stored<W: Write, F: Files>(
    to: &mut W,
    files: &mut F,
    name: &str,
    bytes: &[u8],
    limit: u32,
) -> io::Result<()> {
    write!(to, "{name}:")?;
    let stored = files.store(name, bytes);
    print_store(to, stored)?;
    write!(to, "{name}, at most {limit}:")?;
    let fetched = files.fetch(name, limit);
    print_fetch(to, fetched, bytes)
}

/// Prints what becomes of files that are stored and fetched, one of them with these bytes.
fn print_all<W: Write, F: Files>(to: &mut W, files: &mut F, text: &[u8]) -> io::Result<()> {
    print_stored(to, files, "stored", b"12345", 5)?;
    print_stored(to, files, "stored", b"12345", 4)?;
    print_stored(to, files, "long", text, 200_000)?;
    print_stored(to, files, "long", text, 199_999)?;
    print_stored(to, files, "no/such/folder", b"12345", 5)?;
    writeln!(to, "faults: {}", files.faults())
}

/// Prints what becomes of files of this runtime.
pub(crate) fn print_files<W: Write, R: Disk + Clone + Drop>(
    to: &mut W,
    rt: &R,
    alloc: Global,
) -> io::Result<()> {
    let text = long_text(alloc, 200_000)?;
    let mut files = RealFiles::new(SystemDirectory::new(rt.clone()?, 7), alloc);
    print_all(to, &mut files, text.as_slice())
}
