//! Worked code of a back end: words in clear at three hosts.

ghost use Rattle.std.specs.Prelude.{◌≡◌, ◌<◌, IfOk, OnOk, length, replicate};
ghost use Rattle.vd_duet.specs.Builder.{HasRoom, TakesAtMost};
ghost use Rattle.vd_duet.specs.Calls.{hosts_of, in_clear};
ghost use Rattle.vd_base.specs.Holders.{holders};
ghost use Rattle.vd_duet.specs.Laws.{AreKnown};

use crate::tables::code::{first_of, print_code};
use std::alloc::{AllocError, Global};
use std::io::{self, Write};
use vd_base::{HostId, HostSet, Items, Op};
use vd_clear::{LocalHost, Replica, spread};
use vd_duet::{Backend, Duet, Part, Parts};

/// A number that is kept, and written over by itself.
fn kept<B: Backend>(back_end: &B, to: &mut Duet) -> Result<Parts, AllocError>
    requires known { AreKnown (holders (B.calls back_end.now).proto) to.old.next }
    requires room { HasRoom 8192 to.old.next }
    ensures hosts { IfOk result (λ x. hosts_of (in_clear x) ≡ holders (B.calls back_end.now).proto) }
    ensures few { OnOk result (TakesAtMost 4096 to.old.next to.new.next) }
{
    let word = back_end.literal(7, to)?;
    let kept = back_end.keep(&word, to)?;
    back_end.renew(&kept, &word, to)?;
    Ok(kept)
}

fn shown(to: &mut Duet) -> Result<Part, AllocError>
    requires hosts { to.old.next ≡ replicate 3 0 }
{
    let replica = Replica(HostSet { bits: 0b101 });
    let kept = kept(&replica, to)?;
    replica.show(&kept, HostId(1), to)
}

/// Two hosts keep a copy; host 1 is shown it.
fn print_compared<W: Write>(to: &mut W, alloc: Global) -> io::Result<()> {
    let mut duet = Duet::new(alloc, 3)?;
    let at = shown(&mut duet)?;
    print_code(to, "copies are compared", duet.lines(), at.0)
}

fn moved(to: &mut Duet) -> Result<Parts, AllocError>
    requires hosts { length to.old.next ≡ 3 }
    requires room { HasRoom 16384 to.old.next }
{
    let one = LocalHost(HostId(1)).literal(5, to)?;
    let two = Replica(HostSet { bits: 0b011 }).share(HostId(1), first_of(&one), to)?;
    let three = spread(&two, HostSet { bits: 0b011 }, HostSet { bits: 0b111 }, to)?;
    let all = Replica(HostSet { bits: 0b111 }).show_all(&three, to)?;
    let last = LocalHost(HostId(2)).adopt(&all, to)?;
    let mut operands = Items::new(to.alloc());
    operands.push(last)?;
    LocalHost(HostId(2)).apply(Op::Flip, &operands, to)
}

/// Host 1 shares a number with host 0; both tell host 2, which turns its lowest bit.
fn print_moved<W: Write>(to: &mut W, alloc: Global) -> io::Result<()> {
    let mut duet = Duet::new(alloc, 3)?;
    let flipped = moved(&mut duet)?;
    print_code(to, "copies are moved", duet.lines(), first_of(&flipped))
}

/// Prints the code of each row.
pub(crate) fn print<W: Write>(to: &mut W, alloc: Global) -> io::Result<()> {
    print_compared(to, alloc)?;
    print_moved(to, alloc)
}
