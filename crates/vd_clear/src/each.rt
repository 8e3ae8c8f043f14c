ghost use Rattle.std.specs.Prelude.{◌≡◌, ◌<◌, ◌≤◌, ◌+◌, ◌^◌, ℕ, List, IfOk, OnOk, length, slice_index};
ghost use Rattle.vd_base.specs.declared.ids.HostId.{HostId as Host};
ghost use Rattle.vd_execution.specs.declared.instructions.Reg.{Reg as Register};
ghost use Rattle.vd_duet.specs.Builder.{HasRoom, TakesAtMost, TakesFew};
ghost use Rattle.vd_duet.specs.Calls.{Made, Makes, in_clear, hosts_of};
ghost use Rattle.vd_duet.specs.Laws.{AreKnown};
ghost use Rattle.vd_clear.specs.Copies.{each_made};

use std::alloc::AllocError;
use vd_base::{HostId, Items};
use vd_duet::{Duet, Part, Parts};
use vd_execution::Reg;

/// What each of some hosts does to have its copy of a word.
pub trait Step {
    ghost made: { Self → Host → List ℕ → Made Register };

    ghost is_small: { Self → Type 0 };

    /// The step of a host: the register of its copy.
    fn at(&self, host: HostId, to: &mut Duet) -> Result<Reg, AllocError>
        requires small { is_small self.now }
        requires known { host.0 < length to.old.next }
        requires room { slice_index to.old.next host.0 + 8 < 2 ^ 32 }
        ensures exact { IfOk result (λ r. Makes (made self.now host) to.old r to.new) }
        ensures few { OnOk result (TakesAtMost 8 to.old.next to.new.next) };
}

/// Each of these hosts takes the step, in order.
#[tactic(auto, using(crate::proofs::Loops::behind_end))]
pub fn each_host<S: Step>(hosts: &[HostId], step: &S, to: &mut Duet) -> Result<Parts, AllocError>
    requires small { S.is_small step.now }
    requires hosts { length hosts.now ≤ 8 }
    requires known { AreKnown hosts.now to.old.next }
    requires room { HasRoom 0 to.old.next }
    ensures exact { IfOk result (λ x. Makes (each_made (S.made step.now) hosts.now) to.old (in_clear x) to.new) }
    ensures hosts { IfOk result (λ x. hosts_of (in_clear x) ≡ hosts.now) }
    ensures few { OnOk result (TakesFew to.old.next to.new.next) }
{
    let mut parts = Items::new(to.alloc());
    for host in hosts {
        let at = step.at(*host, to)?;
        parts.push((*host, Part(at)))?;
    }
    Ok(parts)
}
