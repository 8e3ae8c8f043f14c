//! What the objects of the system do: files that are stored and fetched, what a directory in memory holds after stores, stores of
//! which some steps are refused, streams that take a byte at a time, links over the loopback, also where a stranger comes first, and child
//! programs that a shell plays, alone and side by side.

mod children;
mod disk;
mod files;
mod kept;
mod links;
mod stores;
mod streams;

use std::alloc::Global;
use std::io::{self, Write};

/// Prints what all objects of this runtime do.
pub(crate) fn print<W: Write>(to: &mut W, rt: &HostRuntime, alloc: Global) -> io::Result<()> {
    files::print_files(to, rt, alloc)?;
    kept::print_kept(to, rt, alloc)?;
    disk::print_disk(to, alloc)?;
    stores::print_stores(to, alloc)?;
    streams::print_streams(to, alloc)?;
    links::print_links(to, rt, alloc, rt.process())?;
    children::print_children(to, rt, alloc)
}
