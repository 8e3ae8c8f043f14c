//! What each host of a protocol does for the number of a turn.

ghost use Rattle.std.specs.Prelude.{◌≡◌, ◌<◌, ◌+◌, ◌^◌, IfOk, OnOk, length, slice_index};
ghost use Rattle.vd_execution.specs.declared.instructions.Action.TheVariants as action;
ghost use Rattle.vd_duet.specs.Builder.{HasRoom, TakesAtMost, TakesFew, next_at};
ghost use Rattle.vd_duet.specs.Calls.{Makes, in_clear};
ghost use Rattle.vd_base.specs.Holders.{holders as holders_of};
ghost use Rattle.vd_duet.specs.Laws.{AreKnown};
ghost use Rattle.vd_clear.specs.Copies.{written_by};
ghost use Rattle.vd_backend_laws.specs.Parts.{turned};
ghost use Rattle.vd_backends.specs.Formed.{AreFormed};
ghost use Rattle.vd_backends.specs.Turns.{shared_turn};

use std::alloc::{AllocError, Global};
use vd_base::{HostId, Proto};
use vd_clear::{Step, each_host};
use vd_duet::{Duet, Part, Parts};
use vd_execution::{Act, Action, Reg};

/// A host's register among those of a loop.
fn turn_at(turns: &[u32], host: HostId) -> Reg
    ensures { result ≡ next_at turns.now host }
{
    match turns.get(usize::from(host.0)) {
        Some(register) => Reg(*register),
        None => Reg(0),
    }
}

/// A copy of the loop's register.
#[derive(Drop)]
struct CopyTurn<'a>(&'a [u32]);

impl<'a> Step for CopyTurn<'a> {
    ghost made = { λ s h. written_by h (λ r. action.Copy r (next_at s.0.now h)) };

    ghost is_small = { λ s. Unit {0} };

    fn at(&self, host: HostId, to: &mut Duet) -> Result<Reg, AllocError> {
        let at = to.reserve(host, 1);
        to.add(Act::Do(host, Action::Copy(at, turn_at(self.0, host))))?;
        Ok(at)
    }
}

/// Zero in a fresh register.
fn zero(host: HostId, to: &mut Duet) -> Result<Reg, AllocError>
    requires known { host.0 < length to.old.next }
    requires room { slice_index to.old.next host.0 + 8 < 2 ^ 32 }
    ensures exact { IfOk result (λ r. Makes (written_by host (λ r. action.Const r 0)) to.old r to.new) }
    ensures few { OnOk result (TakesAtMost 8 to.old.next to.new.next) }
{
    let at = to.reserve(host, 1);
    to.add(Act::Do(host, Action::Const(at, 0)))?;
    Ok(at)
}

/// Of two hosts that share, the first has a copy of the loop's register, and the other 0.
#[derive(Drop)]
struct ShareTurn<'a>(HostId, &'a [u32]);

impl<'a> Step for ShareTurn<'a> {
    ghost made = { λ s. shared_turn s.0 s.1.now };

    ghost is_small = { λ s. Unit {0} };

    fn at(&self, host: HostId, to: &mut Duet) -> Result<Reg, AllocError> {
        if host.0 == self.0.0 {
            CopyTurn(self.1).at(host, to)
        } else {
            zero(host, to)
        }
    }
}

/// The number of the turn, from the registers of the innermost loop, by host.
pub(crate) fn turn(at: Proto, turns: &[u32], to: &mut Duet) -> Result<Parts, AllocError>
    requires known { AreKnown (holders_of at) to.old.next }
    requires room { HasRoom 0 to.old.next }
    ensures exact { IfOk result (λ x. Makes (turned at turns.now) to.old (in_clear x) to.new) }
    ensures formed { IfOk result (λ x. AreFormed at (in_clear x)) }
    ensures few { OnOk result (TakesFew to.old.next to.new.next) }
{
    match at {
        Proto::Local(host) => each_host(&[host], &CopyTurn(turns), to),
        Proto::Rep(set) => {
            let hosts = set.members(to.alloc())?;
            each_host(hosts.as_slice(), &CopyTurn(turns), to)
        }
        Proto::Add(first, second) => { each_host(&[first, second], &ShareTurn(first, turns), to) }
        Proto::Xor(first, second) => { each_host(&[first, second], &ShareTurn(first, turns), to) }
        Proto::Commit(bound, keeper) => { each_host(&[bound, keeper], &CopyTurn(turns), to) }
    }
}
