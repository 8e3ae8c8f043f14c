//! Worked code of a back end: words that two hosts share as sums.

ghost use Rattle.std.specs.Prelude.{◌≡◌, length};
ghost use Rattle.vd_duet.specs.Builder.{HasRoom};

use crate::tables::code::{first_of, print_code};
use std::alloc::{AllocError, Global};
use std::io::{self, Write};
use vd_base::{HostId, Items, Op};
use vd_clear::LocalHost;
use vd_duet::{Backend, Duet, Part};
use vd_words::AddPair;

fn multiplied(to: &mut Duet) -> Result<Part, AllocError>
    requires hosts { length to.old.next ≡ 2 }
    requires room { HasRoom 32768 to.old.next }
{
    let pair = AddPair(HostId(0), HostId(1));
    let seven = LocalHost(HostId(0)).literal(7, to)?;
    let six = LocalHost(HostId(1)).literal(6, to)?;
    let mut operands = Items::new(to.alloc());
    operands.push(pair.share(HostId(0), first_of(&seven), to)?)?;
    operands.push(pair.share(HostId(1), first_of(&six), to)?)?;
    let product = pair.apply(Op::Mul, &operands, to)?;
    pair.show(&product, HostId(1), to)
}

/// Host 0 shares a number and host 1 another; they are multiplied, and host 1 is shown the product.
pub(crate) fn print<W: Write>(to: &mut W, alloc: Global) -> io::Result<()> {
    let mut duet = Duet::new(alloc, 2)?;
    let at = multiplied(&mut duet)?;
    print_code(to, "shared words are multiplied", duet.lines(), at.0)
}
