//! The vectors of RFC 4231, RFC 5869 and RFC 8439.

use crate::tables::bytes::{counted, print_bytes};
use std::io::{self, Write};
use vd_channel_crypto::{derive, hmac, key_stream};

/// Prints the cases 1 to 3 of RFC 4231, the cases 1 and 3 of RFC 5869, and of RFC 8439 the blocks 1, 2 and 5 of A.1
/// and the first of 2.4.2.
pub(crate) fn print<W: Write>(to: &mut W) -> io::Result<()> {
    print_codes(to)?;
    print_keys(to)?;
    print_streams(to)
}

/// The codes of RFC 4231.
fn print_codes<W: Write>(to: &mut W) -> io::Result<()> {
    let one = hmac(&[0x0b; 20], b"Hi There", b"", b"");
    print_bytes(to, "RFC 4231, 1:", &one)?;
    let two = hmac(b"Jefe", b"what do ya want ", b"for ", b"nothing?");
    print_bytes(to, "RFC 4231, 2:", &two)?;
    let three = hmac(&[0xaa; 20], &[0xdd; 25], &[0xdd; 25], b"");
    print_bytes(to, "RFC 4231, 3:", &three)
}

/// The keys of RFC 5869.
fn print_keys<W: Write>(to: &mut W) -> io::Result<()> {
    let salt = [0, 1, 2, 3, 4, 5, 6, 7, 8, 9, 10, 11, 12];
    let info = [0xf0, 0xf1, 0xf2, 0xf3, 0xf4, 0xf5, 0xf6, 0xf7, 0xf8, 0xf9];
    print_bytes(to, "RFC 5869, 1:", &derive(&salt, &[0x0b; 22], &info, b""))?;
    print_bytes(to, "RFC 5869, 3:", &derive(b"", &[0x0b; 22], b"", b""))
}

/// The first block of a stream.
fn first_block(stream: &[u8; 128]) -> [u8; 64] {
    let mut block = [0; 64];
    for place in 0..64 {
        block[place] = stream[place];
    }
    block
}

/// The block of a stream behind the first.
fn second_block(stream: &[u8; 128]) -> [u8; 64] {
    let mut block = [0; 64];
    for place in 0..64 {
        block[place] = stream[place + 64];
    }
    block
}

/// The streams of RFC 8439.
fn print_streams<W: Write>(to: &mut W) -> io::Result<()> {
    print_bytes(to, "RFC 8439, A.1, 1 and 2:", &key_stream(&[0; 32], 0))?;
    let fifth = first_block(&key_stream(&[0; 32], 2 << 56));
    print_bytes(to, "RFC 8439, A.1, 5:", &fifth)?;
    let behind = second_block(&key_stream(&counted(), 0x4a00_0000));
    print_bytes(to, "RFC 8439, 2.4.2:", &behind)
}
