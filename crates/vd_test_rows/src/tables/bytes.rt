//! How bytes are printed.

use std::io::{self, Write};

/// Prints what this is, and bytes as hexadecimal digits.
pub(crate) fn print_bytes<W: Write>(to: &mut W, name: &str, bytes: &[u8]) -> io::Result<()> {
    write!(to, "{name} ")?;
    for byte in bytes {
        let byte = *byte;
        write!(to, "{byte:02x}")?;
    }
    writeln!(to)
}

/// 32 bytes, each one more than the one before.
pub(crate) fn counted() -> [u8; 32] {
    let mut bytes = [0; 32];
    for place in 0..32 {
        bytes[place] = place as u8;
    }
    bytes
}
