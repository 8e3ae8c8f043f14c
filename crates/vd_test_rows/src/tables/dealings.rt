//! The keys of a dealing, at the values of a second implementation.

use crate::tables::bytes::{counted, print_bytes};
use std::io::{self, Write};
use vd_channel_crypto::{dealing_id, items_key, link_key};
use vd_tape::Counts;

/// Prints what the bytes from 0 to 31 make for a dealing of four own words and two products to two hosts.
pub(crate) fn print<W: Write>(to: &mut W) -> io::Result<()> {
    let key = counted();
    let counts = Counts {
        hosts: 2,
        own: 4,
        muls: 2,
        ands: 0,
        pairs: 0,
    };
    print_bytes(to, "id", &dealing_id(counts, &key))?;
    print_bytes(to, "items", &items_key(counts, &key))?;
    print_bytes(to, "link 0 1", &link_key(counts, &key, 0, 1))
}
