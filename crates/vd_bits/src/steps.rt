ghost use Rattle.std.specs.Prelude.{◌≡◌, ◌<◌, ◌∷◌, [], IfOk, OnOk};
ghost use Rattle.vd_duet.specs.Builder.{TakesAtMost};
ghost use Rattle.vd_duet.specs.Calls.{Makes, appended};
ghost use Rattle.vd_duet.specs.Laws.{AreKnown};
ghost use Rattle.vd_backend_sharing.specs.PairCalls.{AreLow};
ghost use Rattle.vd_bits.specs.BitCalls.{parts_at, shifted_left, shifted_right, turned_first, masked_shares, mask_at};

use std::alloc::AllocError;
use vd_backend_sharing::{Pair, PartRegisters};
use vd_base::HostId;
use vd_duet::Duet;
use vd_execution::{Act, Action, Binary, Reg};

/// The parts of the word at a place.
#[tactic(auto, using(crate::proofs::Places::part_there, crate::proofs::Places::part_past))]
pub(crate) fn part(words: &[PartRegisters], place: usize) -> PartRegisters
    ensures { result ≡ parts_at words.now place }
{
    if place < words.len() {
        words[place]
    } else {
        PartRegisters {
            first: Reg(0),
            second: Reg(0),
        }
    }
}

/// Each host shifts its part to the left.
pub(crate) fn shift_left(
    pair: &Pair,
    amount: u32,
    x: PartRegisters,
    to: &mut Duet,
) -> Result<PartRegisters, AllocError>
    requires known { AreKnown (pair.now.first ∷ pair.now.second ∷ []) to.old.next }
    requires room { AreLow to.old.next }
    ensures exact { IfOk result (λ y. Makes (shifted_left amount pair.now.first pair.now.second x) to.old y to.new) }
    ensures few { OnOk result (TakesAtMost 32 to.old.next to.new.next) }
{
    let at = pair.reserve(1, 1, to);
    to.add(Act::Do(pair.first, Action::Shl(at.first, x.first, amount)))?;
    to.add(Act::Do(pair.second, Action::Shl(at.second, x.second, amount)))?;
    Ok(at)
}

/// Each host shifts its part to the right.
pub(crate) fn shift_right(
    pair: &Pair,
    amount: u32,
    x: PartRegisters,
    to: &mut Duet,
) -> Result<PartRegisters, AllocError>
    requires known { AreKnown (pair.now.first ∷ pair.now.second ∷ []) to.old.next }
    requires room { AreLow to.old.next }
    ensures exact { IfOk result (λ y. Makes (shifted_right amount pair.now.first pair.now.second x) to.old y to.new) }
    ensures few { OnOk result (TakesAtMost 32 to.old.next to.new.next) }
{
    let at = pair.reserve(1, 1, to);
    to.add(Act::Do(pair.first, Action::Shr(at.first, x.first, amount)))?;
    to.add(Act::Do(pair.second, Action::Shr(at.second, x.second, amount)))?;
    Ok(at)
}

/// The first host turns the bits of a number in its part; the second keeps its part.
pub(crate) fn turn(
    pair: &Pair,
    bits: u32,
    x: PartRegisters,
    to: &mut Duet,
) -> Result<PartRegisters, AllocError>
    requires known { AreKnown (pair.now.first ∷ pair.now.second ∷ []) to.old.next }
    requires room { AreLow to.old.next }
    ensures exact { IfOk result (λ y. Makes (turned_first bits pair.now.first pair.now.second x) to.old y to.new) }
    ensures few { OnOk result (TakesAtMost 32 to.old.next to.new.next) }
{
    let number = to.reserve(pair.first, 2);
    let turned = Reg(number.0 + 1);
    to.add(Act::Do(pair.first, Action::Const(number, bits)))?;
    to.add(Act::Do(
        pair.first,
        Action::Apply(Binary::Xor, turned, x.first, number),
    ))?;
    Ok(PartRegisters {
        first: turned,
        second: x.second,
    })
}

/// Each host makes all bits of its part as the lowest.
pub(crate) fn mask(
    pair: &Pair,
    x: PartRegisters,
    to: &mut Duet,
) -> Result<PartRegisters, AllocError>
    requires known { AreKnown (pair.now.first ∷ pair.now.second ∷ []) to.old.next }
    requires room { AreLow to.old.next }
    ensures exact { IfOk result (λ y. Makes (masked_shares pair.now.first pair.now.second x) to.old y to.new) }
    ensures few { OnOk result (TakesAtMost 32 to.old.next to.new.next) }
{
    let at = pair.reserve(4, 4, to);
    mask_part(pair.first, x.first, at.first.0, to)?;
    mask_part(pair.second, x.second, at.second.0, to)?;
    Ok(PartRegisters {
        first: Reg(at.first.0 + 3),
        second: Reg(at.second.0 + 3),
    })
}

/// 0 less the lowest bit, in the last of four registers from `at` on.
fn mask_part(host: HostId, x: Reg, at: u32, to: &mut Duet) -> Result<(), AllocError>
    requires { at < 4000000016 }
    ensures { OnOk result (to.new ≡ appended (mask_at host x at) to.old) }
{
    let (one, bit, zero) = (Reg(at), Reg(at + 1), Reg(at + 2));
    to.add(Act::Do(host, Action::Const(one, 1)))?;
    to.add(Act::Do(host, Action::Apply(Binary::And, bit, one, x)))?;
    to.add(Act::Do(host, Action::Const(zero, 0)))?;
    to.add(Act::Do(host, Action::Apply(Binary::Sub, Reg(at + 3), zero, bit)))
}
