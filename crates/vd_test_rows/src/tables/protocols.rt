//! The tables of protocols: for two, three and four hosts what each move costs, and then where the rows of slots stand and what
//! operations cost there; and behind these, what operations make of words.
//!
//! L0 is the local protocol of host 0, R5 copies at hosts 0 and 2, C02 a commitment of host 0 to host 2, and A and X are words
//! that two hosts share by sums and by exclusive or. A dash stands where nothing goes.

use std::alloc::Global;
use std::io::{self, Write};
use vd_base::{HostId, HostSet, Op, Proto, combine};
use vd_cost::{move_cost, op_cost};
use vd_protocol::{Row, can, holds, joins, protocols};

fn print_protocol<W: Write>(to: &mut W, protocol: Proto) -> io::Result<()> {
    match protocol {
        Proto::Local(HostId(host)) => write!(to, "L{host}"),
        Proto::Rep(HostSet { bits }) => write!(to, "R{bits:x}"),
        Proto::Commit(HostId(first), HostId(second)) => write!(to, "C{first}{second}"),
        Proto::Add(HostId(first), HostId(second)) => write!(to, "A{first}{second}"),
        Proto::Xor(HostId(first), HostId(second)) => write!(to, "X{first}{second}"),
    }
}

/// A cost behind a blank, or a dash.
fn print_cost<W: Write>(to: &mut W, cost: Option<u32>) -> io::Result<()> {
    match cost {
        Some(cost) => write!(to, " {cost}"),
        None => write!(to, " -"),
    }
}

/// A row for each protocol: what it costs to move from there to each protocol, in the same order.
fn print_moves<W: Write>(to: &mut W, list: &[Proto]) -> io::Result<()> {
    for from in list {
        print_protocol(to, *from)?;
        for at in list {
            let cost = if joins(*from, *at) {
                Some(move_cost(*from, *at))
            } else {
                None
            };
            print_cost(to, cost)?;
        }
        to.write_all(b"\n")?;
    }
    Ok(())
}

const ALICE: HostId = HostId(0);

const BOB: HostId = HostId(1);

/// Where rows and operations are looked at: one host, copies, a commitment, and both ways to share.
const PLACES: [Proto; 5] = [
    Proto::Local(ALICE),
    Proto::Rep(HostSet { bits: 0b1011 }),
    Proto::Commit(ALICE, BOB),
    Proto::Add(ALICE, BOB),
    Proto::Xor(ALICE, BOB),
];

const ROWS: [(&str, Row); 5] = [
    ("constant", Row::Constant),
    ("carry", Row::Carry),
    ("input(alice)", Row::Input(ALICE)),
    ("input(bob)", Row::Input(BOB)),
    ("variable", Row::Variable),
];

const OPERATIONS: [(&str, Op); 20] = [
    ("Add", Op::Add),
    ("Sub", Op::Sub),
    ("Scale", Op::Scale(7)),
    ("Mul", Op::Mul),
    ("Div", Op::Div),
    ("Rem", Op::Rem),
    ("Xor", Op::Xor),
    ("Not", Op::Not),
    ("Flip", Op::Flip),
    ("Shl", Op::Shl(3)),
    ("Shr", Op::Shr(3)),
    ("And", Op::And),
    ("Or", Op::Or),
    ("Mux", Op::Mux),
    ("Eq", Op::Eq),
    ("Ne", Op::Ne),
    ("Lt", Op::Lt),
    ("Le", Op::Le),
    ("Min", Op::Min),
    ("Max", Op::Max),
];

/// Operations on words. One that takes fewer than three has zeros behind its own.
const WORDS: [(&str, Op, [u32; 3]); 23] = [
    ("Add", Op::Add, [4_294_967_295, 2, 0]),
    ("Sub", Op::Sub, [3, 5, 0]),
    ("Mul", Op::Mul, [65_536, 65_537, 0]),
    ("Scale by 3", Op::Scale(3), [2_147_483_648, 0, 0]),
    ("Div", Op::Div, [7, 2, 0]),
    ("Div", Op::Div, [7, 0, 0]),
    ("Rem", Op::Rem, [7, 4, 0]),
    ("Rem", Op::Rem, [7, 0, 0]),
    ("And", Op::And, [12, 10, 0]),
    ("Or", Op::Or, [12, 10, 0]),
    ("Xor", Op::Xor, [12, 10, 0]),
    ("Not", Op::Not, [1, 0, 0]),
    ("Flip", Op::Flip, [5, 0, 0]),
    ("Shl by 31", Op::Shl(31), [3, 0, 0]),
    ("Shr by 4", Op::Shr(4), [4_294_967_295, 0, 0]),
    ("Eq", Op::Eq, [5, 5, 0]),
    ("Ne", Op::Ne, [5, 5, 0]),
    ("Lt", Op::Lt, [5, 4_294_967_295, 0]),
    ("Le", Op::Le, [5, 5, 0]),
    ("Min", Op::Min, [5, 4_294_967_295, 0]),
    ("Max", Op::Max, [5, 4_294_967_295, 0]),
    ("Mux", Op::Mux, [1, 8, 9]),
    ("Mux", Op::Mux, [2, 8, 9]),
];

/// Where a row that is no operation stands: a mark or a dash for each place.
fn print_row<W: Write>(to: &mut W, name: &str, row: Row) -> io::Result<()> {
    to.write_all(name.as_bytes())?;
    for at in PLACES {
        to.write_all(if holds(row, at) { b" #" } else { b" -" })?;
    }
    to.write_all(b"\n")
}

/// What an operation costs at each place where it stands. An operation stands where its row does.
fn print_operation<W: Write>(to: &mut W, name: &str, op: Op) -> io::Result<()> {
    to.write_all(name.as_bytes())?;
    for at in PLACES {
        let cost = if can(op, at) && holds(Row::Apply(op), at) {
            Some(op_cost(op, at))
        } else {
            None
        };
        print_cost(to, cost)?;
    }
    to.write_all(b"\n")
}

/// What an operation makes of three words.
fn print_words<W: Write>(to: &mut W, name: &str, op: Op, words: [u32; 3]) -> io::Result<()> {
    let [x, y, z] = words;
    write!(to, "{name} {x} {y} {z} = {}\n", combine(op, x, y, z))
}

/// Prints all tables.
pub(crate) fn print<W: Write>(to: &mut W, alloc: Global) -> io::Result<()> {
    for hosts in 2..5 {
        print_moves(to, protocols(alloc, hosts)?.as_slice())?;
    }
    for (name, row) in ROWS {
        print_row(to, name, row)?;
    }
    for (name, op) in OPERATIONS {
        print_operation(to, name, op)?;
    }
    for (name, op, words) in WORDS {
        print_words(to, name, op, words)?;
    }
    Ok(())
}
