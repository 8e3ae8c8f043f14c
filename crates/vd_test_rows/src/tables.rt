//! The tables of protocols, what seals a link, and worked code of the back ends.

mod bits;
mod bytes;
mod clear;
mod code;
mod dealings;
mod links;
mod protocols;
mod standards;
mod words;

use std::alloc::Global;
use std::io::Write;

/// Prints the rows of all libraries.
pub(crate) fn print<W: Write>(to: &mut W, alloc: Global) -> anyhow::Result<()> {
    protocols::print(to, alloc)?;
    standards::print(to)?;
    dealings::print(to)?;
    links::print(to, alloc)?;
    clear::print(to, alloc)?;
    words::print(to, alloc)?;
    bits::print(to, alloc)?;
    Ok(())
}
