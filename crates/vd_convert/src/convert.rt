ghost use Rattle.std.specs.Prelude.{◌≡◌, ◌<◌, ◌∷◌, [], IfOk, OnOk};
ghost use Rattle.vd_execution.specs.Gadgets.{BothShare};
ghost use Rattle.vd_duet.specs.Builder.{HasRoom, TakesAtMost, TakesFew};
ghost use Rattle.vd_duet.specs.Calls.{Makes, appended, hosts_of, in_clear};
ghost use Rattle.vd_duet.specs.Laws.{AreKnown};
ghost use Rattle.vd_backend_sharing.specs.PairCalls.{AreLow};
ghost use Rattle.vd_backend_sharing.specs.declared.shares.Sharing.TheVariants as way;
ghost use Rattle.vd_convert.specs.Convert.{masked_parts, drawn, finishing, finished, to_xor_made, to_add_made};

use std::alloc::AllocError;
use vd_backend_sharing::{Pair, PartRegisters, Sharing, tell};
use vd_bits::XorPair;
use vd_duet::{Duet, Part, Parts};
use vd_execution::{Act, Action, Binary, Reg};
use vd_words::AddPair;

/// Two words by their parts.
#[derive(Clone, Copy)]
struct Two {
    one: PartRegisters,
    other: PartRegisters,
}

/// A word that is shared by sums becomes one that is shared by exclusive or: each part is shared, and the two are added.
pub fn to_xor(hosts: &AddPair, x: &Parts, to: &mut Duet) -> Result<Parts, AllocError>
    requires known { AreKnown (hosts.now.0 ∷ hosts.now.1 ∷ []) to.old.next }
    requires room { HasRoom 0 to.old.next }
    ensures exact { IfOk result (λ y. Makes (to_xor_made hosts.now.0 hosts.now.1 (in_clear x.now)) to.old (in_clear y) to.new) }
    ensures hosts { IfOk result (λ y. hosts_of (in_clear y) ≡ hosts.now.0 ∷ hosts.now.1 ∷ []) }
    ensures few { OnOk result (TakesFew to.old.next to.new.next) }
{
    let bits = XorPair(hosts.0, hosts.1);
    let words = mask(&pair_of(&bits), PartRegisters::of(x), to)?;
    let one = words.one.at(hosts.0, hosts.1, to.alloc())?;
    let other = words.other.at(hosts.0, hosts.1, to.alloc())?;
    bits.add(&one, &other, to)
}

/// A word that is shared by exclusive or becomes one that is shared by sums, by a dealt pair: its word is taken off, what is
/// left is opened, and the first host adds that to its part of the pair.
pub fn to_add(hosts: &XorPair, x: &Parts, to: &mut Duet) -> Result<Parts, AllocError>
    requires known { AreKnown (hosts.now.0 ∷ hosts.now.1 ∷ []) to.old.next }
    requires room { HasRoom 0 to.old.next }
    ensures exact { IfOk result (λ y. Makes (to_add_made hosts.now.0 hosts.now.1 (in_clear x.now)) to.old (in_clear y) to.new) }
    ensures hosts { IfOk result (λ y. hosts_of (in_clear y) ≡ hosts.now.0 ∷ hosts.now.1 ∷ []) }
    ensures few { OnOk result (TakesFew to.old.next to.new.next) }
{
    let pair = draw(&pair_of(hosts), PartRegisters::of(x), to)?;
    let word = pair.other.at(hosts.0, hosts.1, to.alloc())?;
    let rest = hosts.sub(x, &word, to)?;
    let made = finish(&pair_of(hosts), PartRegisters::of(&rest), pair.one, to)?;
    let sum = made.at(hosts.0, hosts.1, to.alloc())?;
    Ok(sum)
}

fn pair_of(hosts: &XorPair) -> Pair
    ensures { result ≡ record { sharing = way.Xors; first = hosts.now.0; second = hosts.now.1 } }
{
    Pair {
        sharing: Sharing::Xors,
        first: hosts.0,
        second: hosts.1,
    }
}

/// Both hosts mask their parts by own words and give these to each other: each part is now shared.
fn mask(pair: &Pair, x: PartRegisters, to: &mut Duet) -> Result<Two, AllocError>
    requires known { AreKnown (pair.now.first ∷ pair.now.second ∷ []) to.old.next }
    requires room { AreLow to.old.next }
    ensures exact { IfOk result (λ y. Makes (masked_parts pair.now.first pair.now.second x) to.old (y.one, y.other) to.new) }
    ensures few { OnOk result (TakesAtMost 32 to.old.next to.new.next) }
{
    let at = pair.reserve(3, 3, to);
    let (heard, heard_too) = (Reg(at.first.0 + 1), Reg(at.second.0 + 1));
    let (masked, masked_too) = (Reg(at.first.0 + 2), Reg(at.second.0 + 2));
    give(pair, at, heard, heard_too, to)?;
    to.add(Act::Do(
        pair.first,
        Action::Apply(Binary::Xor, masked, x.first, at.first),
    ))?;
    to.add(Act::Do(
        pair.second,
        Action::Apply(Binary::Xor, masked_too, x.second, at.second),
    ))?;
    Ok(Two {
        one: PartRegisters {
            first: masked,
            second: heard_too,
        },
        other: PartRegisters {
            first: heard,
            second: masked_too,
        },
    })
}

/// Both hosts take an own word and give it to each other.
fn give(
    pair: &Pair,
    own: PartRegisters,
    heard: Reg,
    heard_too: Reg,
    to: &mut Duet,
) -> Result<(), AllocError>
    ensures { OnOk result (to.new ≡ appended (BothShare pair.now.first own.first heard pair.now.second own.second heard_too ∷ []) to.old) }
{
    to.add(Act::Do(pair.first, Action::Own(own.first)))?;
    to.add(Act::Do(pair.second, Action::Own(own.second)))?;
    tell(pair.first, own.first, pair.second, heard_too, to)?;
    tell(pair.second, own.second, pair.first, heard, to)
}

/// Both hosts take a dealt pair: their parts of its sum, and of its exclusive or.
fn draw(pair: &Pair, x: PartRegisters, to: &mut Duet) -> Result<Two, AllocError>
    requires known { AreKnown (pair.now.first ∷ pair.now.second ∷ []) to.old.next }
    requires room { AreLow to.old.next }
    ensures exact { IfOk result (λ y. Makes (drawn pair.now.first pair.now.second x) to.old (y.one, y.other) to.new) }
    ensures few { OnOk result (TakesAtMost 32 to.old.next to.new.next) }
{
    let at = pair.reserve(2, 2, to);
    let word = PartRegisters {
        first: Reg(at.first.0 + 1),
        second: Reg(at.second.0 + 1),
    };
    to.add(Act::Do(pair.first, Action::Pair(pair.second, at.first, word.first)))?;
    to.add(Act::Do(
        pair.second,
        Action::Pair(pair.first, at.second, word.second),
    ))?;
    Ok(Two {
        one: at,
        other: word,
    })
}

/// Both hosts open what is left, and the first adds it to its part of the pair.
fn finish(
    pair: &Pair,
    rest: PartRegisters,
    sum: PartRegisters,
    to: &mut Duet,
) -> Result<PartRegisters, AllocError>
    requires known { AreKnown (pair.now.first ∷ pair.now.second ∷ []) to.old.next }
    requires room { AreLow to.old.next }
    ensures exact { IfOk result (λ y. Makes (finished pair.now.first pair.now.second rest sum) to.old y to.new) }
    ensures few { OnOk result (TakesAtMost 32 to.old.next to.new.next) }
{
    let at = pair.reserve(3, 2, to);
    tell(pair.first, rest.first, pair.second, at.second, to)?;
    tell(pair.second, rest.second, pair.first, at.first, to)?;
    join(pair, rest, sum, at, to)?;
    Ok(PartRegisters {
        first: Reg(at.first.0 + 2),
        second: sum.second,
    })
}

/// Both hosts join the parts of what is left, and the first adds its part of the pair.
fn join(
    pair: &Pair,
    rest: PartRegisters,
    sum: PartRegisters,
    at: PartRegisters,
    to: &mut Duet,
) -> Result<(), AllocError>
    requires low_first { at.first.0 < 4000000016 }
    requires low_second { at.second.0 < 4000000016 }
    ensures { OnOk result (to.new ≡ appended (finishing pair.now.first pair.now.second rest sum at.first.0 at.second.0) to.old) }
{
    let (word, word_too) = (Reg(at.first.0 + 1), Reg(at.second.0 + 1));
    to.add(Act::Do(
        pair.first,
        Action::Apply(Binary::Xor, word, rest.first, at.first),
    ))?;
    to.add(Act::Do(
        pair.first,
        Action::Apply(Binary::Add, Reg(at.first.0 + 2), word, sum.first),
    ))?;
    to.add(Act::Do(
        pair.second,
        Action::Apply(Binary::Xor, word_too, rest.second, at.second),
    ))
}
