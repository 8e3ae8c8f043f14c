//! Commitments: the registers of what two hosts keep as the parts of a slot, and back.

ghost use Rattle.std.specs.Prelude.{◌≡◌, ◌<◌, ◌∷◌, [], IsTrue, IfOk, OnOk};
ghost use Rattle.vd_base.specs.declared.protocols.Proto.TheVariants as proto;
ghost use Rattle.vd_base.specs.Holders.{holders};
ghost use Rattle.vd_duet.specs.Builder.{HasRoom, TakesFew};
ghost use Rattle.vd_duet.specs.Calls.{Makes, hosts_of, in_clear};
ghost use Rattle.vd_duet.specs.Laws.{AreKnown};
ghost use Rattle.vd_backend_laws.specs.Commits.{bound as bound_at, commit_calls, committed_at as places_of, held_of, place as place_of};
ghost use Rattle.vd_backend_laws.specs.Commits.{seen_of, shown_to_all};
ghost use Rattle.vd_backends.specs.Formed.{AreFormed, is_named};
ghost use Rattle.vd_backends.specs.Moving.{Shows};

use std::alloc::{AllocError, Global};
use vd_base::{HostId, Items};
use vd_commit::{Held, Seen, commit, reveal};
use vd_duet::{Duet, Part, Parts};
use vd_execution::Reg;

/// The register at a place, and 0 where there is none.
fn place(x: &Parts, at: usize) -> Reg
    ensures { result ≡ place_of (in_clear x.now) at }
{
    match x.as_slice().get(at) {
        Some(part) => part.1.0,
        None => Reg(0),
    }
}

/// What the host that is bound keeps.
fn held(x: &Parts) -> Held
    ensures { result ≡ held_of (in_clear x.now) }
{
    Held {
        value: place(x, 0),
        nonce: place(x, 1),
    }
}

/// What the other host keeps.
fn seen(x: &Parts) -> Seen
    ensures { result ≡ seen_of (in_clear x.now) }
{
    Seen {
        digest: place(x, 9),
    }
}

/// The registers of a commitment, of both hosts.
fn parts(
    bound: HostId,
    keeper: HostId,
    held: Held,
    seen: Seen,
    alloc: Global,
) -> Result<Parts, AllocError>
    requires nonce { held.nonce.0 < 4000000000 }
    requires digest { seen.digest.0 < 4000000000 }
    ensures { IfOk result (λ y. in_clear y ≡ places_of bound keeper (held, seen)) }
{
    let (n, d) = (held.nonce.0, seen.digest.0);
    Ok(Items::from_slice(
        alloc,
        &[
            (bound, Part(held.value)),
            (bound, Part(Reg(n))),
            (bound, Part(Reg(n + 1))),
            (bound, Part(Reg(n + 2))),
            (bound, Part(Reg(n + 3))),
            (bound, Part(Reg(n + 4))),
            (bound, Part(Reg(n + 5))),
            (bound, Part(Reg(n + 6))),
            (bound, Part(Reg(n + 7))),
            (keeper, Part(Reg(d))),
            (keeper, Part(Reg(d + 1))),
            (keeper, Part(Reg(d + 2))),
            (keeper, Part(Reg(d + 3))),
            (keeper, Part(Reg(d + 4))),
            (keeper, Part(Reg(d + 5))),
            (keeper, Part(Reg(d + 6))),
            (keeper, Part(Reg(d + 7))),
        ],
    )?)
}

/// A host binds itself to the word of a register, and another keeps the digest.
pub(crate) fn commit_to(
    bound: HostId,
    keeper: HostId,
    x: Reg,
    to: &mut Duet,
) -> Result<Parts, AllocError>
    requires known { AreKnown (bound ∷ keeper ∷ []) to.old.next }
    requires room { HasRoom 0 to.old.next }
    ensures exact { IfOk result (λ y. Makes (bound_at bound keeper x) to.old (in_clear y) to.new) }
    ensures formed { IfOk result (λ y. AreFormed (proto.Commit bound keeper) (in_clear y)) }
    ensures few { OnOk result (TakesFew to.old.next to.new.next) }
{
    let (held, seen) = commit(bound, keeper, x, to)?;
    parts(bound, keeper, held, seen, to.alloc())
}

/// The move of a committed word to one host: the one that is bound has it, and to the other it is revealed.
pub(crate) fn show_bound(
    bound: HostId,
    keeper: HostId,
    x: &Parts,
    at: HostId,
    to: &mut Duet,
) -> Result<Parts, AllocError>
    requires known { AreKnown (bound ∷ keeper ∷ []) to.old.next }
    requires named { IsTrue (is_named (in_clear x.now)) }
    requires room { HasRoom 0 to.old.next }
    ensures exact { IfOk result (λ y. Shows (commit_calls bound keeper) at (in_clear x.now) to.old (in_clear y) to.new) }
    ensures hosts { IfOk result (λ y. hosts_of (in_clear y) ≡ holders (proto.Local at)) }
    ensures few { OnOk result (TakesFew to.old.next to.new.next) }
{
    let shown = if at.0 == bound.0 {
        Part(place(x, 0))
    } else {
        reveal(bound, keeper, held(x), seen(x), to)?
    };
    Ok(Items::from_slice(to.alloc(), &[(at, shown)])?)
}

/// The move of a committed word to both hosts.
pub(crate) fn show_both(
    bound: HostId,
    keeper: HostId,
    x: &Parts,
    to: &mut Duet,
) -> Result<Parts, AllocError>
    requires known { AreKnown (bound ∷ keeper ∷ []) to.old.next }
    requires named { IsTrue (is_named (in_clear x.now)) }
    requires room { HasRoom 0 to.old.next }
    ensures exact { IfOk result (λ y. Makes (shown_to_all bound keeper (in_clear x.now)) to.old (in_clear y) to.new) }
    ensures few { OnOk result (TakesFew to.old.next to.new.next) }
{
    let revealed = reveal(bound, keeper, held(x), seen(x), to)?;
    Ok(Items::from_slice(
        to.alloc(),
        &[(bound, Part(place(x, 0))), (keeper, revealed)],
    )?)
}

/// The registers of a commitment, as those of these hosts.
pub(crate) fn same_bound(
    bound: HostId,
    keeper: HostId,
    x: &Parts,
    alloc: Global,
) -> Result<Parts, AllocError>
    requires named { IsTrue (is_named (in_clear x.now)) }
    ensures exact { IfOk result (λ y. in_clear y ≡ places_of bound keeper (held_of (in_clear x.now), seen_of (in_clear x.now))) }
    ensures named { IfOk result (λ y. AreFormed (proto.Commit bound keeper) (in_clear y)) }
{
    parts(bound, keeper, held(x), seen(x), alloc)
}
