use std::alloc::{AllocError, Global};
use std::io::{self, Write};
use vd_base::{Items, Text};
use vd_edge::{Directory, KeptFiles, RealFiles, Wanted};
use vd_fakes::{Entry, MemDirectory};
use vd_outside::Files;

/// What stands in the directory before the run.
const STOOD: [(&str, &[u8]); 2] = [("kept", b"old"), ("other", b"12345")];

/// What is stored one after the other. Two of the stores fail.
const STORED: [(&str, &[u8]); 4] = [
    ("kept", b"new"),
    ("made", b"text"),
    ("other", b"67"),
    ("left", b"89"),
];

/// The changes that fail, by their numbers: a store creates, fills, renames and settles, and removes what it could not fill. The new file
/// of the third store cannot be filled, and that of the fourth neither filled nor removed.
const FAILING: [u64; 3] = [9, 12, 13];

/// The names at which is looked afterwards.
const NAMES: [&str; 7] = [
    "kept",
    "kept.tmp-7-0",
    "made",
    "other",
    "other.tmp-7-0",
    "left",
    "left.tmp-7-0",
];

/// The directory.
fn directory(alloc: Global) -> Result<MemDirectory, AllocError> {
    let mut entries = Items::new(alloc);
    for (name, bytes) in STOOD {
        entries.push(Entry::file(alloc, name, bytes)?)?;
    }
    let failing = Items::from_slice(alloc, &FAILING)?;
    Ok(MemDirectory::new(alloc, entries, failing))
}

/// The files that are read ahead.
fn wanted(alloc: Global) -> Result<Items<Wanted>, AllocError> {
    let mut files = Items::new(alloc);
    for (name, _) in STOOD {
        let name = Text::copy_of(alloc, name)?;
        files.push(Wanted { name, most: 9 })?;
    }
    Ok(files)
}

/// Prints what stands at each name of a directory.
fn print_names<W: Write, D: Directory>(to: &mut W, alloc: Global, directory: &D) -> io::Result<()> {
    for name in NAMES {
        match directory.read(alloc, name, 9) {
            Ok(bytes) => writeln!(to, "{name} holds {:?}", bytes.as_slice())?,
            Err(_) => writeln!(to, "nothing stands at {name}")?,
        }
    }
    Ok(())
}

/// Prints how stores end over a directory in memory that was read ahead, and what stands in it afterwards: each file that was stored
/// whole, and nothing else but what stood there, save what the last store could not remove.
pub(crate) fn print_disk<W: Write>(to: &mut W, alloc: Global) -> io::Result<()> {
    let below = RealFiles::new(directory(alloc)?, alloc);
    let wanted = wanted(alloc)?;
    match KeptFiles::read(below, alloc, wanted.as_slice()) {
        Ok(mut files) => {
            for (name, bytes) in STORED {
                let stored = files.store(name, bytes);
                writeln!(to, "store {name}: {stored:?}")?;
            }
            let left = files.into_inner().into_inner();
            print_names(to, alloc, &left)
        }
        Err(fault) => writeln!(to, "not read: {fault:?}"),
    }
}
