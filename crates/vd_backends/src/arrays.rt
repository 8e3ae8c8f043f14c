//! Arrays: a row of registers at each host, read and written at an index that stands there in clear.

ghost use Rattle.std.specs.Prelude.{◌≡◌, ◌+◌, ◌≤◌, IfOk, OnOk, length, map};
ghost use Rattle.vd_execution.specs.Gadgets.{Alone};
ghost use Rattle.vd_execution.specs.declared.instructions.Action.TheVariants as action;
ghost use Rattle.vd_duet.specs.Builder.{HasRoom, TakesAtMost, TakesFew, most_taken};
ghost use Rattle.vd_duet.specs.Calls.{Makes, appended, hosts_of, in_clear, register_of};
ghost use Rattle.vd_base.specs.Holders.{holders as holders_of};
ghost use Rattle.vd_duet.specs.Laws.{AreKnown};
ghost use Rattle.vd_clear.specs.Copies.{each_made, written_by};
ghost use Rattle.vd_split.specs.Suite.{Made as AnyMade};
ghost use Rattle.vd_backend_laws.specs.Parts.{cell_read, cell_written, index_of, new_cells, zeros_at};
ghost use Rattle.vd_backends.specs.Formed.{AreFormed};
ghost use Rattle.vd_backends.specs.Offered.{AreApart};

use crate::placement::Placement;
use std::alloc::AllocError;
use vd_base::{HostId, Items, Proto, holders};
use vd_clear::{Step, each_host};
use vd_duet::{Duet, Part, Parts, register_at};
use vd_execution::{Act, Action, Reg};

/// So many zeros in fresh registers of each of these hosts.
fn zeros(hosts: &[HostId], size: u32, to: &mut Duet) -> Result<Parts, AllocError>
    requires apart { AreApart hosts.now }
    requires known { AreKnown hosts.now to.old.next }
    requires room { HasRoom size to.old.next }
    ensures exact { IfOk result (λ x. Makes (each_made (zeros_at size) hosts.now) to.old (in_clear x) to.new) }
    ensures hosts { IfOk result (λ x. hosts_of (in_clear x) ≡ hosts.now) }
    ensures few { OnOk result (TakesAtMost size to.old.next to.new.next) }
{
    let mut parts = Items::new(to.alloc());
    for host in hosts {
        let at = to.reserve(*host, size);
        to.add(Act::Do(*host, Action::Zero(at, size)))?;
        parts.push((*host, Part(at)))?;
    }
    Ok(parts)
}

/// An array of so many zeros.
pub(crate) fn cells(at: Proto, size: u32, to: &mut Duet) -> Result<Parts, AllocError>
    requires apart { AreApart (holders_of at) }
    requires known { AreKnown (holders_of at) to.old.next }
    requires room { HasRoom size to.old.next }
    ensures exact { IfOk result (λ x. Makes (new_cells at size) to.old (in_clear x) to.new) }
    ensures formed { IfOk result (λ x. AreFormed at (in_clear x)) }
    ensures few { OnOk result (TakesAtMost (most_taken + size) to.old.next to.new.next) }
{
    let hosts = holders(at, to.alloc())?;
    zeros(hosts.as_slice(), size, to)
}

/// The register of a host's index.
fn index_at(index: &[(u8, u32)], host: HostId) -> Reg
    ensures { result ≡ index_of index.now host.0 }
{
    for part in index {
        if host.0 == part.0 {
            return Reg(part.1);
        }
    }
    Reg(0)
}

/// A word of an array is read, at the index in these registers.
#[derive(Drop)]
struct Read<'a>(&'a Placement, &'a [(u8, u32)]);

impl<'a> Step for Read<'a> {
    ghost made = { λ s h. written_by h (λ r. action.Get r (register_of s.0.now.at h.0) s.0.now.size (index_of s.1.now h.0)) };

    ghost is_small = { λ s. Unit {0} };

    fn at(&self, host: HostId, to: &mut Duet) -> Result<Reg, AllocError> {
        let array = register_at(self.0.parts(), host);
        let index = index_at(self.1, host);
        let at = to.reserve(host, 1);
        to.add(Act::Do(host, Action::Get(at, array, self.0.size(), index)))?;
        Ok(at)
    }
}

/// A word of an array.
pub(crate) fn get(
    at: Proto,
    x: &Placement,
    index: &[(u8, u32)],
    to: &mut Duet,
) -> Result<Parts, AllocError>
    requires known { AreKnown (holders_of at) to.old.next }
    requires room { HasRoom 0 to.old.next }
    ensures exact { IfOk result (λ y. Makes (cell_read at x.now index.now) to.old (in_clear y) to.new) }
    ensures formed { IfOk result (λ y. AreFormed at (in_clear y)) }
    ensures few { OnOk result (TakesFew to.old.next to.new.next) }
{
    let hosts = holders(at, to.alloc())?;
    each_host(hosts.as_slice(), &Read(x, index), to)
}

/// A word of an array is written at each of these hosts.
fn write(
    hosts: &[HostId],
    kept: &Placement,
    index: &[(u8, u32)],
    x: &Placement,
    to: &mut Duet,
) -> Result<(), AllocError>
    ensures { OnOk result (to.new ≡ appended
        (map (λ h. Alone h (action.Put (register_of kept.now.at h.0) kept.now.size (index_of index.now h.0) (register_of x.now.at h.0))) hosts.now)
        to.old) }
{
    for host in hosts {
        let array = register_at(kept.parts(), *host);
        let word = register_at(x.parts(), *host);
        let at = index_at(index, *host);
        to.add(Act::Do(*host, Action::Put(array, kept.size(), at, word)))?;
    }
    Ok(())
}

/// A word of an array is written.
pub(crate) fn put(
    at: Proto,
    kept: &Placement,
    index: &[(u8, u32)],
    x: &Placement,
    to: &mut Duet,
) -> Result<(), AllocError>
    ensures { OnOk result (to.new ≡ appended (cell_written at kept.now index.now x.now.at) to.old) }
{
    let hosts = holders(at, to.alloc())?;
    write(hosts.as_slice(), kept, index, x, to)
}
