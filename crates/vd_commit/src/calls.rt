ghost use Rattle.std.specs.Prelude.{◌≡◌, ◌<◌, ◌∷◌, [], IfOk, OnOk, length};
ghost use Rattle.vd_execution.specs.Gadgets.{Tells};
ghost use Rattle.vd_duet.specs.Builder.{HasRoom, TakesFew};
ghost use Rattle.vd_duet.specs.Calls.{Makes, appended};
ghost use Rattle.vd_commit.specs.Commit.{eight as eight_of, own_each, same_each, committed, revealed};

use crate::ends::{Held, Seen};
use std::alloc::AllocError;
use vd_base::{HostId, Items};
use vd_duet::{Duet, Part};
use vd_execution::{Act, Action, Reg};

/// Eight registers from one on.
fn eight(at: u32) -> [Reg; 8]
    requires { at < 4000000040 }
    ensures { result ≡ eight_of at }
{
    [
        Reg(at),
        Reg(at + 1),
        Reg(at + 2),
        Reg(at + 3),
        Reg(at + 4),
        Reg(at + 5),
        Reg(at + 6),
        Reg(at + 7),
    ]
}

/// A register, and eight from one on.
fn nine(first: Reg, at: u32) -> [Reg; 9]
    requires { at < 4000000040 }
    ensures { result ≡ first ∷ eight_of at }
{
    [
        first,
        Reg(at),
        Reg(at + 1),
        Reg(at + 2),
        Reg(at + 3),
        Reg(at + 4),
        Reg(at + 5),
        Reg(at + 6),
        Reg(at + 7),
    ]
}

/// `from` binds itself to the word of `x`: it takes a nonce of eight own words, and `to` gets the digest of both.
pub fn commit(from: HostId, to: HostId, x: Reg, code: &mut Duet) -> Result<(Held, Seen), AllocError>
    requires from { from.0 < length code.old.next }
    requires to { to.0 < length code.old.next }
    requires room { HasRoom 0 code.old.next }
    ensures exact { IfOk result (λ ends. Makes (committed from to x) code.old ends code.new) }
    ensures few { OnOk result (TakesFew code.old.next code.new.next) }
{
    let nonce = code.reserve(from, 16);
    let digest = code.reserve(to, 8);
    let hashed = Reg(nonce.0 + 8);
    own(from, &eight(nonce.0), code)?;
    code.add(Act::Do(from, Action::Hash(hashed, nonce, x)))?;
    tell(from, &eight(hashed.0), to, &eight(digest.0), code)?;
    Ok((Held { value: x, nonce }, Seen { digest }))
}

/// `from` tells `to` its value and nonce, and `to` compares their digest with the one that it has.
pub fn reveal(
    from: HostId,
    to: HostId,
    held: Held,
    seen: Seen,
    code: &mut Duet,
) -> Result<Part, AllocError>
    requires to { to.0 < length code.old.next }
    requires room { HasRoom 0 code.old.next }
    requires nonce { held.nonce.0 < 4000000000 }
    requires digest { seen.digest.0 < 4000000000 }
    ensures exact { IfOk result (λ value. Makes (revealed from to held seen) code.old value.0 code.new) }
    ensures few { OnOk result (TakesFew code.old.next code.new.next) }
{
    let value = code.reserve(to, 17);
    let (nonce, digest) = (Reg(value.0 + 1), Reg(value.0 + 9));
    tell(
        from,
        &nine(held.value, held.nonce.0),
        to,
        &nine(value, nonce.0),
        code,
    )?;
    code.add(Act::Do(to, Action::Hash(digest, nonce, value)))?;
    check(to, digest, seen, code)?;
    Ok(Part(value))
}

/// A host takes an own word into each register.
fn own(host: HostId, registers: &[Reg], code: &mut Duet) -> Result<(), AllocError>
    ensures { OnOk result (code.new ≡ appended (own_each host registers.now) code.old) }
{
    for register in registers {
        code.add(Act::Do(host, Action::Own(*register)))?;
    }
    Ok(())
}

/// A host tells another the words of registers.
fn tell(
    from: HostId,
    said: &[Reg],
    to: HostId,
    heard: &[Reg],
    code: &mut Duet,
) -> Result<(), AllocError>
    ensures { OnOk result (code.new ≡ appended (Tells from said.now to heard.now ∷ []) code.old) }
{
    let words = Items::from_slice(code.alloc(), said)?;
    let registers = Items::from_slice(code.alloc(), heard)?;
    code.add(Act::Msg(from, words, to, registers))
}

/// A host compares a digest with the one that it has.
fn check(host: HostId, digest: Reg, seen: Seen, code: &mut Duet) -> Result<(), AllocError>
    requires digest { digest.0 < 4000000040 }
    requires seen { seen.digest.0 < 4000000000 }
    ensures { OnOk result (code.new ≡ appended (same_each host (eight_of digest.0) (eight_of seen.digest.0)) code.old) }
{
    compare(host, &eight(digest.0), &eight(seen.digest.0), code)?;
    Ok(())
}

/// A host compares registers one by one, as many of one list as of the other.
fn compare(host: HostId, xs: &[Reg], ys: &[Reg], code: &mut Duet) -> Result<(), AllocError>
    requires { length xs.now ≡ length ys.now }
    ensures { OnOk result (code.new ≡ appended (same_each host xs.now ys.now) code.old) }
{
    for (place, x) in xs.iter().enumerate() {
        code.add(Act::Do(host, Action::Same(*x, ys[place])))?;
    }
    Ok(())
}
