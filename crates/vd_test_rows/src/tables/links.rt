//! What goes over a sealed link, at the values of a second implementation.

ghost use Rattle.std.specs.Prelude.{◌≤◌, length};

use crate::tables::bytes::{counted, print_bytes};
use std::alloc::Global;
use std::io::{self, Write};
use vd_base::HostId;
use vd_channel_crypto::{Frame, Hello, Keys, nonce, open};

/// The public name of the dealing of these rows.
const ID: [u8; 32] = [
    0x9a, 0xa6, 0x4f, 0xc0, 0x07, 0xf2, 0x8f, 0x9d, 0x50, 0x9b, 0x76, 0xb3, 0x96, 0x6a, 0xe4, 0xb7,
    0xe0, 0x80, 0x11, 0xb7, 0x5b, 0x94, 0xcd, 0x46, 0xe6, 0x9a, 0x9d, 0x45, 0xcd, 0xf0, 0x46, 0xb1,
];

/// The key of its link.
const LINK: [u8; 32] = [
    0xdf, 0x88, 0xcd, 0xd6, 0x2d, 0xac, 0xed, 0x83, 0x06, 0xd7, 0x86, 0x17, 0xc9, 0x4d, 0x9c, 0x7a,
    0x78, 0x61, 0x68, 0xda, 0x95, 0xb7, 0x91, 0x5c, 0xac, 0x0d, 0xe2, 0xb7, 0x29, 0xee, 0x36, 0x8e,
];

/// The digest of a plan.
const PLAN: [u8; 32] = [
    0x46, 0xa0, 0xb4, 0x96, 0x65, 0x83, 0xc6, 0x1b, 0x4e, 0xb1, 0x1a, 0x84, 0xe3, 0x0c, 0x7f, 0xfb,
    0x90, 0x7d, 0xcb, 0x7e, 0x8a, 0xfa, 0x7a, 0x4b, 0xf6, 0x7d, 0x40, 0x30, 0xdf, 0xc6, 0x50, 0xb6,
];

/// A packet of one word, as it goes out.
const PACKET: [u8; 6] = [0x56, 1, 0, 0, 0, 0x2a];

/// A packet of sixteen words, as it goes out: more bytes than a block of the stream has.
fn long_packet() -> [u8; 66] {
    let mut bytes = [0; 66];
    bytes[0] = 0x56;
    bytes[1] = 16;
    for place in 0..64 {
        bytes[place + 2] = place as u8;
    }
    bytes
}

/// The greeting of a host to the other of two, as it goes out.
fn greeting(from: u8, to: u8) -> [u8; 36] {
    let plan = PLAN;
    let mut bytes = [0; 36];
    bytes[0] = 0x47;
    bytes[1] = 1;
    for place in 0..32 {
        bytes[place + 2] = plan[place];
    }
    bytes[34] = from;
    bytes[35] = to;
    bytes
}

/// The hello of a host to the other of two.
fn hello(from: u8, to: u8, nonce: u8) -> Hello {
    Hello {
        id: ID,
        from: HostId(from),
        to: HostId(to),
        nonce: [nonce; 32],
    }
}

/// Prints a record.
fn print_record<W: Write>(
    to: &mut W,
    frame: &mut Frame,
    name: &str,
    keys: &Keys,
    number: u64,
    bytes: &[u8],
) -> io::Result<()>
    requires { length bytes.now ≤ 128 }
{
    frame.set_record(keys, number, bytes);
    print_bytes(to, name, frame.as_slice())
}

/// Prints the records of a proof, a greeting and packets of one host, and those of a proof and a greeting of the other.
fn print_records<W: Write>(
    to: &mut W,
    frame: &mut Frame,
    own: &Keys,
    other: &Keys,
) -> io::Result<()> {
    print_record(to, frame, "record 0 of 0", own, 0, &[])?;
    print_record(to, frame, "record 1 of 0", own, 1, &greeting(0, 1))?;
    print_record(to, frame, "record 2 of 0", own, 2, &PACKET)?;
    print_record(to, frame, "record 3 of 0", own, 3, &long_packet())?;
    print_record(to, frame, "record 0 of 1", other, 0, &[])?;
    print_record(to, frame, "record 1 of 1", other, 1, &greeting(1, 0))
}

/// Prints whether a covered packet with this code is opened at this place.
fn print_opened<W: Write>(
    to: &mut W,
    name: &str,
    keys: &Keys,
    number: u64,
    covered: &[u8],
    code: &[u8; 32],
) -> io::Result<()>
    requires { length covered.now ≤ 128 }
{
    match open(keys, number, covered, code) {
        Some(bytes) => {
            let front: &[u8] = &bytes[..6];
            let same = front == PACKET.as_slice();
            writeln!(to, "{name}: opened, the same: {same}")
        }
        None => writeln!(to, "{name}: refused"),
    }
}

/// Prints who opens a record of a packet: its own number and keys, and others.
fn print_opening<W: Write>(
    to: &mut W,
    frame: &mut Frame,
    own: &Keys,
    other: &Keys,
) -> io::Result<()> {
    frame.set_record(own, 2, &PACKET);
    let mut covered = [0; 6];
    let mut code = [0; 32];
    let bytes = frame.as_slice();
    if bytes.len() == 40 {
        covered.copy_from_slice(&bytes[2..8]);
        code.copy_from_slice(&bytes[8..]);
    }
    print_opened(to, "its own place", own, 2, &covered, &code)?;
    print_opened(to, "another number", own, 3, &covered, &code)?;
    print_opened(to, "the other direction", other, 2, &covered, &code)?;
    print_opened(to, "a byte less", own, 2, &covered[..5], &code)?;
    code[31] ^= 1;
    print_opened(to, "another code", own, 2, &covered, &code)?;
    code[31] ^= 1;
    covered[0] ^= 0x80;
    print_opened(to, "another bit", own, 2, &covered, &code)
}

/// Prints what goes over a link: hellos, keys, a nonce and records.
pub(crate) fn print<W: Write>(to: &mut W, alloc: Global) -> anyhow::Result<()> {
    let mut frame = Frame::new(alloc)?;
    let zero = hello(0, 1, 0xa0);
    let one = hello(1, 0, 0xb1);
    frame.set_hello(&zero);
    print_bytes(to, "hello of 0", frame.as_slice())?;
    frame.set_hello(&one);
    print_bytes(to, "hello of 1", frame.as_slice())?;
    let (own, other) = frame.keys_of(&LINK, &zero, &one);
    print_bytes(to, "cipher key of 0", &own.cipher)?;
    print_bytes(to, "code key of 0", &own.code)?;
    let (back, _own) = frame.keys_of(&LINK, &one, &zero);
    print_bytes(to, "cipher key of 1", &back.cipher)?;
    print_bytes(to, "code key of 1", &back.code)?;
    print_bytes(to, "nonce", &nonce(&counted(), HostId(1), 3))?;
    print_records(to, &mut frame, &own, &other)?;
    print_opening(to, &mut frame, &own, &other)?;
    Ok(())
}
