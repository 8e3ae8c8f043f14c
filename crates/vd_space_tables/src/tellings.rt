//! What it costs to tell the guards.

ghost use Rattle.std.specs.Prelude.{◌≡◌, ◌≤◌, ◌<◌, IfOk, length, map};
ghost use Rattle.vd_base.specs.Limits.{most_weights};
ghost use Rattle.vd_space_tables.specs.Charges.{AreCandidates, telling_of};
ghost use Rattle.vd_space.specs.WellFormed.{AreProtocols, IsWellFormed};

use crate::charges::told_charge;
use std::alloc::{AllocError, Global};
use vd_base::{HostId, Items, Proto};
use vd_space::{Guard, Problem};
use vd_space_prefix::Telling;

/// What it costs to tell each guard.
pub(crate) fn tellings_by_guard(
    alloc: Global,
    problem: &Problem,
    list: &[Proto],
    candidates: &[Items<bool>],
) -> Result<Items<Telling>, AllocError>
    requires list { AreProtocols problem.now list.now }
    requires well_formed { IsWellFormed problem.now }
    requires candidates { AreCandidates problem.now candidates.now }
    ensures { IfOk result (λ tellings. tellings ≡ map (telling_of problem.now) problem.now.guards) }
{
    let mut tellings = Items::new(alloc);
    for guard in problem.guards.as_slice() {
        tellings.push(telling(alloc, problem, list, candidates, guard)?)?;
    }
    Ok(tellings)
}

/// What it costs to tell a guard to each host: from each place, and at least while its slot is not decided.
fn telling(
    alloc: Global,
    problem: &Problem,
    list: &[Proto],
    candidates: &[Items<bool>],
    guard: &Guard,
) -> Result<Telling, AllocError>
    requires list { AreProtocols problem.now list.now }
    requires candidates { AreCandidates problem.now candidates.now }
    requires slot { guard.now.slot.0 < length problem.now.slots }
    requires weight { guard.now.weight ≤ most_weights }
    ensures { IfOk result (λ telling. telling ≡ telling_of problem.now guard.now) }
{
    let mut free = Items::new(alloc);
    let mut costs = Items::new(alloc);
    let hosts = problem.hosts.as_slice().len() as u8;
    for host in 0..hosts {
        let charge = told_charge(
            alloc,
            problem,
            list,
            candidates,
            guard.slot,
            guard.weight,
            HostId(host),
        )?;
        free.push(charge.free)?;
        costs.push(charge.costs)?;
    }
    Ok(Telling {
        slot: guard.slot.0 as u32,
        free,
        costs,
    })
}
