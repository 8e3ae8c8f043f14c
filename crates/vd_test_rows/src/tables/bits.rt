//! Worked code of a back end: words that two hosts share by exclusive or.

ghost use Rattle.std.specs.Prelude.{◌≡◌, ◌<◌, IfOk, OnOk, length};
ghost use Rattle.vd_base.specs.Holders.{holders};
ghost use Rattle.vd_duet.specs.Builder.{HasRoom, TakesAtMost};
ghost use Rattle.vd_duet.specs.Laws.{AreKnown};
ghost use Rattle.vd_circuit.specs.CircuitCalls.{circuit_calls};
ghost use Rattle.vd_test_rows.specs.Serving.{ServesOfTwo};

use crate::tables::code::{first_of, print_code};
use std::alloc::{AllocError, Global};
use std::io::{self, Write};
use vd_base::{HostId, Items, Op};
use vd_bits::XorPair;
use vd_circuit::CircuitPair;
use vd_clear::LocalHost;
use vd_duet::{Args, Backend, Duet, Part, Parts};

/// A number of one of the two hosts, shared.
fn shared<B: Backend>(pair: &B, host: HostId, word: u32, to: &mut Duet) -> Result<Parts, AllocError>
    requires known { AreKnown (holders (B.calls pair.now).proto) to.old.next }
    requires host { host.0 < length to.old.next }
    requires room { HasRoom 4096 to.old.next }
    ensures few { OnOk result (TakesAtMost 4096 to.old.next to.new.next) }
{
    let number = LocalHost(host).literal(word, to)?;
    pair.share(host, first_of(&number), to)
}

/// A number of host 0 and one of host 1, shared.
fn operands<B: Backend>(pair: &B, to: &mut Duet) -> Result<Args, AllocError>
    requires known { AreKnown (holders (B.calls pair.now).proto) to.old.next }
    requires hosts { length to.old.next ≡ 2 }
    requires room { HasRoom 16384 to.old.next }
    ensures two { IfOk result (λ args. length args ≡ 2) }
    ensures few { OnOk result (TakesAtMost 8192 to.old.next to.new.next) }
{
    let first = shared(pair, HostId(0), 12, to)?;
    let second = shared(pair, HostId(1), 10, to)?;
    let mut operands = Items::new(to.alloc());
    operands.push(first)?;
    operands.push(second)?;
    Ok(operands)
}

/// What an operation gives of two numbers, shown to host 1.
fn shown<B: Backend>(pair: &B, op: Op, to: &mut Duet) -> Result<Part, AllocError>
    requires known { AreKnown (holders (B.calls pair.now).proto) to.old.next }
    requires hosts { length to.old.next ≡ 2 }
    requires room { HasRoom 32768 to.old.next }
    requires serves { ServesOfTwo (B.calls pair.now) op }
{
    let operands = operands(pair, to)?;
    let result = pair.apply(op, &operands, to)?;
    pair.show(&result, HostId(1), to)
}

/// Host 0 shares a number and host 1 another; the bits that both have are found by a bit triple, and shown to host 1.
fn print_bits<W: Write>(to: &mut W, alloc: Global) -> io::Result<()> {
    let mut duet = Duet::new(alloc, 2)?;
    let at = shown(&XorPair(HostId(0), HostId(1)), Op::And, &mut duet)?;
    print_code(to, "bits of both", duet.lines(), at.0)
}

/// Whether the two numbers are equal.
fn print_comparison<W: Write>(to: &mut W, alloc: Global) -> io::Result<()> {
    let mut duet = Duet::new(alloc, 2)?;
    let at = shown(&CircuitPair(HostId(0), HostId(1)), Op::Eq, &mut duet)?;
    print_code(to, "words are compared", duet.lines(), at.0)
}

/// Whether the first number is below the second.
fn print_order<W: Write>(to: &mut W, alloc: Global) -> io::Result<()> {
    let mut duet = Duet::new(alloc, 2)?;
    let at = shown(&CircuitPair(HostId(0), HostId(1)), Op::Lt, &mut duet)?;
    print_code(to, "words are ordered", duet.lines(), at.0)
}

/// A choice and two numbers, shared.
fn choice(pair: &CircuitPair, to: &mut Duet) -> Result<Args, AllocError>
    requires known { AreKnown (holders (circuit_calls pair.now.0 pair.now.1).proto) to.old.next }
    requires hosts { length to.old.next ≡ 2 }
    requires room { HasRoom 16384 to.old.next }
    ensures three { IfOk result (λ args. length args ≡ 3) }
    ensures few { OnOk result (TakesAtMost 12288 to.old.next to.new.next) }
{
    let one = shared(pair, HostId(0), 1, to)?;
    let first = shared(pair, HostId(0), 12, to)?;
    let second = shared(pair, HostId(1), 10, to)?;
    let mut operands = Items::new(to.alloc());
    operands.push(one)?;
    operands.push(first)?;
    operands.push(second)?;
    Ok(operands)
}

fn chosen(to: &mut Duet) -> Result<Part, AllocError>
    requires hosts { length to.old.next ≡ 2 }
    requires room { HasRoom 32768 to.old.next }
{
    let pair = CircuitPair(HostId(0), HostId(1));
    let operands = choice(&pair, to)?;
    let result = pair.apply(Op::Mux, &operands, to)?;
    pair.show(&result, HostId(1), to)
}

/// A choice between two numbers by a third.
fn print_choice<W: Write>(to: &mut W, alloc: Global) -> io::Result<()> {
    let mut duet = Duet::new(alloc, 2)?;
    let at = chosen(&mut duet)?;
    print_code(to, "one of two is chosen", duet.lines(), at.0)
}

/// Prints the code of each row.
pub(crate) fn print<W: Write>(to: &mut W, alloc: Global) -> io::Result<()> {
    print_bits(to, alloc)?;
    print_comparison(to, alloc)?;
    print_order(to, alloc)?;
    print_choice(to, alloc)
}
