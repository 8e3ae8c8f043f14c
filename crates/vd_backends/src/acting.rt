//! Which hosts act in moves and operations, by the protocols alone.

ghost use Rattle.std.specs.Prelude.{◌≡◌, Bool, nat_eq};
ghost use Rattle.std.specs.List.{list_any};
ghost use Rattle.vd_base.specs.HostSets.{members as members_of};
ghost use Rattle.vd_base.specs.declared.ids.HostId.{HostId as Host};
ghost use Rattle.vd_base.specs.declared.protocols.Proto.TheVariants as proto;
ghost use Rattle.vd_base.specs.Holders.{holders};
ghost use Rattle.vd_duet.specs.Acting as duet;
ghost use Rattle.vd_backend_laws.specs.Moves.{moved_at};
ghost use Rattle.vd_backend_laws.specs.Parts.{route};

use vd_base::{HostId, HostSet, Op, Proto};

/// A test of hosts.
trait Test {
    ghost passes: { Self → Host → Bool };

    fn of(&self, host: HostId) -> bool
        ensures { result ≡ passes self.now host };
}

/// Whether a host of the set passes the test.
fn any_member<T: Test>(set: HostSet, test: &T) -> bool
    ensures { result ≡ list_any (T.passes test.now) (members_of 8 set) }
{
    for number in 0..8 {
        let host = HostId(number);
        if set.has(host) && test.of(host) {
            return true;
        }
    }
    false
}

fn is_either(host: HostId, first: HostId, second: HostId) -> bool
    ensures { result ≡ duet.is_either host.0 first second }
{
    host.0 == first.0 || host.0 == second.0
}

/// It is this host.
#[derive(Drop)]
struct Is(HostId);

impl Test for Is {
    ghost passes = { λ s k. nat_eq s.0.0 k.0 };

    fn of(&self, host: HostId) -> bool {
        self.0.0 == host.0
    }
}

fn passes_at(from: HostId, to: HostId, host: HostId) -> bool
    ensures { result ≡ duet.pass_at from to host.0 }
{
    if from.0 == to.0 {
        false
    } else {
        is_either(host, from, to)
    }
}

/// A host acts where a word goes from another host to this one.
#[derive(Drop)]
struct PassesTo {
    from: HostId,
    acts: HostId,
}

impl Test for PassesTo {
    ghost passes = { λ s k. duet.pass_at s.from k s.acts.0 };

    fn of(&self, host: HostId) -> bool {
        passes_at(self.from, host, self.acts)
    }
}

/// A host acts where this one tells another its copy.
#[derive(Drop)]
struct Tells {
    to: HostId,
    acts: HostId,
}

impl Test for Tells {
    ghost passes = { λ s k. duet.is_either s.acts.0 k s.to };

    fn of(&self, host: HostId) -> bool {
        is_either(self.acts, host, self.to)
    }
}

/// Whether a host acts where copies at a set of hosts are told to a host.
fn told_at(set: HostSet, to: HostId, host: HostId) -> bool
    ensures { result ≡ duet.told_at (holders (proto.Rep set)) to host.0 }
{
    if any_member(set, &Is(to)) {
        false
    } else {
        any_member(set, &Tells { to, acts: host })
    }
}

/// A host acts where copies at a set of hosts are told to this one.
#[derive(Drop)]
struct ToldBy {
    set: HostSet,
    acts: HostId,
}

impl Test for ToldBy {
    ghost passes = { λ s k. duet.told_at (holders (proto.Rep s.set)) k s.acts.0 };

    fn of(&self, host: HostId) -> bool {
        told_at(self.set, host, self.acts)
    }
}

/// Whether a host acts in a move from a host in clear.
fn share_at(from: HostId, onto: Proto, host: HostId) -> bool
    ensures { result ≡ duet.share_at from onto host.0 }
{
    match onto {
        Proto::Local(other) => passes_at(from, other, host),
        Proto::Rep(set) => any_member(set, &PassesTo { from, acts: host }),
        Proto::Commit(first, second) => is_either(host, first, second),
        Proto::Add(first, second) => is_either(host, first, second),
        Proto::Xor(first, second) => is_either(host, first, second),
    }
}

/// Whether a host acts in a move from copies at a set of hosts.
fn copies_move_at(set: HostSet, onto: Proto, host: HostId) -> bool
    ensures { result ≡ moved_at (route (proto.Rep set) onto) (proto.Rep set) onto host.0 }
{
    match onto {
        Proto::Local(other) => told_at(set, other, host),
        Proto::Rep(other) => any_member(other, &ToldBy { set, acts: host }),
        Proto::Commit(_, _) => false,
        Proto::Add(_, second) => host.0 == second.0,
        Proto::Xor(_, second) => host.0 == second.0,
    }
}

/// Whether a host acts in a move from sums of two hosts.
fn sums_move_at(first: HostId, second: HostId, onto: Proto, host: HostId) -> bool
    ensures { result ≡ moved_at (route (proto.Add first second) onto) (proto.Add first second) onto host.0 }
{
    match onto {
        Proto::Local(_) | Proto::Rep(_) => is_either(host, first, second),
        Proto::Xor(one, other) => is_either(host, one, other),
        _ => false,
    }
}

/// Whether a host acts in a move from exclusive ors of two hosts.
fn bits_move_at(first: HostId, second: HostId, onto: Proto, host: HostId) -> bool
    ensures { result ≡ moved_at (route (proto.Xor first second) onto) (proto.Xor first second) onto host.0 }
{
    match onto {
        Proto::Local(_) | Proto::Rep(_) => is_either(host, first, second),
        Proto::Add(one, other) => is_either(host, one, other),
        _ => false,
    }
}

/// Whether a host acts in a move of a committed word.
fn bound_move_at(bound: HostId, keeper: HostId, onto: Proto, host: HostId) -> bool
    ensures { result ≡ moved_at (route (proto.Commit bound keeper) onto) (proto.Commit bound keeper) onto host.0 }
{
    match onto {
        Proto::Local(other) => {
            if other.0 == bound.0 {
                false
            } else {
                is_either(host, bound, keeper)
            }
        }
        Proto::Rep(_) => is_either(host, bound, keeper),
        Proto::Commit(_, _) => false,
        Proto::Add(_, second) => host.0 == second.0,
        Proto::Xor(_, second) => host.0 == second.0,
    }
}

/// Whether a host acts in a move.
pub(crate) fn moves_at(from: Proto, onto: Proto, host: HostId) -> bool
    ensures { result ≡ moved_at (route from onto) from onto host.0 }
{
    match from {
        Proto::Local(other) => share_at(other, onto, host),
        Proto::Rep(set) => copies_move_at(set, onto, host),
        Proto::Commit(bound, keeper) => bound_move_at(bound, keeper, onto, host),
        Proto::Add(first, second) => sums_move_at(first, second, onto, host),
        Proto::Xor(first, second) => bits_move_at(first, second, onto, host),
    }
}

fn is_negation(op: Op) -> bool
    ensures { result ≡ duet.is_negation op }
{
    match op {
        Op::Not | Op::Flip => true,
        _ => false,
    }
}

/// Whether a host acts in an operation.
pub(crate) fn applies_at(op: Op, at: Proto, host: HostId) -> bool
    ensures { result ≡ duet.apply_at op at host.0 }
{
    match at {
        Proto::Local(other) => host.0 == other.0,
        Proto::Rep(set) => any_member(set, &Is(host)),
        Proto::Commit(first, second) => is_either(host, first, second),
        Proto::Add(first, second) => is_either(host, first, second),
        Proto::Xor(first, second) => {
            if is_negation(op) {
                host.0 == first.0
            } else {
                is_either(host, first, second)
            }
        }
    }
}
