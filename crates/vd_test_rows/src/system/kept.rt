use std::alloc::{AllocError, Global};
use std::io::{self, Write};
use std::rt::Files as Disk;
use vd_base::{Items, Text};
use vd_edge::{KeptFiles, RealFiles, SystemDirectory, Wanted};
use vd_outside::Files;

/// The names of the files that are read ahead, each with its most bytes: one twice, and one that is not there.
const WANTED: [(&str, u32); 4] = [("kept", 5), ("kept", 9), ("longer", 4), ("no/such/file", 4)];

/// What is fetched first, with its limit.
const FETCHED: [(&str, u32); 6] = [
    ("kept", 5),
    ("kept", 4),
    ("longer", 4),
    ("longer", 9),
    ("no/such/file", 4),
    ("never read", 4),
];

/// These files.
fn wanted(alloc: Global) -> Result<Items<Wanted>, AllocError> {
    let mut files = Items::new(alloc);
    for (name, most) in WANTED {
        let name = Text::copy_of(alloc, name)?;
        files.push(Wanted { name, most })?;
    }
    Ok(files)
}

/// Prints what a fetch gives: so many bytes that begin with this one.
fn print_fetch<W: Write, F: Files>(
    to: &mut W,
    files: &mut F,
    name: &str,
    limit: u32,
) -> io::Result<()> {
    write!(to, "{name}, at most {limit}: ")?;
    match files.fetch(name, limit) {
        Ok(bytes) => {
            let first = bytes.as_slice().first();
            writeln!(to, "{} bytes, the first {first:?}", bytes.as_slice().len())
        }
        Err(fault) => writeln!(to, "{fault:?}"),
    }
}

/// Prints what files that were read ahead give, where others stored since: what they held then, until bytes are put in their place.
fn print_fetches<W: Write, F: Files, G: Files>(
    to: &mut W,
    files: &mut F,
    others: &mut G,
) -> io::Result<()> {
    let _ = others.store("kept", b"other");
    for (name, limit) in FETCHED {
        print_fetch(to, files, name, limit)?;
    }
    let stored = files.store("kept", b"new");
    writeln!(to, "store: {stored:?}")?;
    print_fetch(to, files, "kept", 5)?;
    print_fetch(to, others, "kept", 5)?;
    writeln!(to, "faults: {}", files.faults())
}

/// Files of this runtime, in which two of those that are read ahead stand.
fn below<R: Disk + Drop>(rt: R, alloc: Global) -> RealFiles<SystemDirectory<R>> {
    let mut below = RealFiles::new(SystemDirectory::new(rt, 7), alloc);
    let _ = below.store("kept", b"12345");
    let _ = below.store("longer", b"12345");
    below
}

/// Files of this runtime that were read ahead; nothing where there was no memory.
fn read_ahead<R: Disk + Clone + Drop>(
    rt: &R,
    alloc: Global,
) -> io::Result<Option<KeptFiles<SystemDirectory<R>>>> {
    let wanted = wanted(alloc)?;
    let below = below(rt.clone()?, alloc);
    Ok(KeptFiles::read(below, alloc, wanted.as_slice()).ok())
}

/// Prints what files that were read ahead give, where others of this runtime stored since.
fn print_beside<W: Write, F: Files, R: Disk + Clone + Drop>(
    to: &mut W,
    files: &mut F,
    rt: &R,
    alloc: Global,
) -> io::Result<()> {
    let mut others = RealFiles::new(SystemDirectory::new(rt.clone()?, 8), alloc);
    print_fetches(to, files, &mut others)
}

/// Prints what files that were read ahead give.
pub(crate) fn print_kept<W: Write, R: Disk + Clone + Drop>(
    to: &mut W,
    rt: &R,
    alloc: Global,
) -> io::Result<()> {
    match read_ahead(rt, alloc)? {
        Some(mut files) => print_beside(to, &mut files, rt, alloc),
        None => writeln!(to, "nothing was read"),
    }
}
