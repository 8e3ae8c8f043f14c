ghost use Rattle.std.specs.Prelude.{◌≡◌, ◌<◌, ◌≤◌, ◌+◌, ◌^◌, IfOk, OnOk, length, slice_index};
ghost use Rattle.vd_duet.specs.Builder.{TakesAtMost};
ghost use Rattle.vd_duet.specs.Calls.{Makes, appended, hosts_of, in_clear};
ghost use Rattle.vd_base.specs.Holders.{is_among};
ghost use Rattle.vd_clear.specs.Copies.{told, compared, first_register, shown};

use std::alloc::AllocError;
use vd_base::{HostId, Items};
use vd_duet::{Duet, Part, Parts, register_at};
use vd_execution::{Act, Action, Reg};

/// Whether a host has a part.
fn has_part(x: &Parts, host: HostId) -> bool
    ensures { result ≡ is_among (hosts_of (in_clear x.now)) host.0 }
{
    for part in x.as_slice() {
        if host.0 == part.0.0 {
            return true;
        }
    }
    false
}

/// Each host tells its copy to a host.
fn tell(x: &Parts, host: HostId, to: &mut Duet) -> Result<Items<Reg>, AllocError>
    requires few { length x.now ≤ 8 }
    requires known { host.0 < length to.old.next }
    requires room { slice_index to.old.next host.0 + 8 < 2 ^ 32 }
    ensures exact { IfOk result (λ heard. Makes (told (in_clear x.now) host) to.old heard to.new) }
    ensures few { OnOk result (TakesAtMost 8 to.old.next to.new.next) }
{
    let mut all = Items::new(to.alloc());
    for part in x.as_slice() {
        let heard = to.reserve(host, 1);
        let said = Items::from_slice(to.alloc(), &[part.1.0])?;
        let hears = Items::from_slice(to.alloc(), &[heard])?;
        to.add(Act::Msg(part.0, said, host, hears))?;
        all.push(heard)?;
    }
    Ok(all)
}

/// A host compares the first of its registers with each other.
fn compare(host: HostId, registers: &[Reg], to: &mut Duet) -> Result<(), AllocError>
    ensures { OnOk result (to.new ≡ appended (compared host registers.now) to.old) }
{
    if let [first, others @ ..] = registers {
        for other in others {
            to.add(Act::Do(host, Action::Same(*first, *other)))?;
        }
    }
    Ok(())
}

/// The first register.
fn first_of(registers: &[Reg]) -> Reg
    ensures { result ≡ first_register registers.now }
{
    match registers {
        [first, ..] => *first,
        [] => Reg(0),
    }
}

/// The move of a word to one host: its own copy, or those of all, which it compares.
#[tactic(auto, using(crate::proofs::Shows::shown_own))]
pub(crate) fn show(x: &Parts, host: HostId, to: &mut Duet) -> Result<Reg, AllocError>
    requires few { length x.now ≤ 8 }
    requires known { host.0 < length to.old.next }
    requires room { slice_index to.old.next host.0 + 8 < 2 ^ 32 }
    ensures exact { IfOk result (λ r. Makes (shown (in_clear x.now) host) to.old r to.new) }
    ensures few { OnOk result (TakesAtMost 8 to.old.next to.new.next) }
{
    if has_part(x, host) {
        return Ok(register_at(x, host));
    }
    let heard = tell(x, host, to)?;
    compare(host, heard.as_slice(), to)?;
    Ok(first_of(heard.as_slice()))
}
