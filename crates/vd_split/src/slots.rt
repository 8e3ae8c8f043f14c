ghost use Rattle.std.specs.Prelude.{◌≡◌, IfOk, slice_index_or};
ghost use Rattle.vd_split.specs.Suite.{holders_among};

use crate::protocols::Protocols;
use std::alloc::AllocError;
use vd_base::{HostId, Items, Proto, SlotId, is_holder};
use vd_duet::Duet;

/// The parts of a slot.
pub(crate) fn parts_of<'a, P: Protocols>(
    protocols: &'a P,
    held: &'a Items<P::Parts>,
    slot: SlotId,
) -> &'a P::Parts
    ensures { result.now ≡ slice_index_or held.now slot.0 (P.offer protocols.now).calls.nowhere }
{
    match held.as_slice().get(usize::from(slot.0)) {
        Some(parts) => parts,
        None => protocols.nowhere(),
    }
}

/// The hosts of a protocol, in order.
#[tactic(auto, using(crate::proofs::Picked::picked_yes, crate::proofs::Picked::picked_no, crate::proofs::Picked::picked_none))]
pub(crate) fn hosts_at<P: Protocols>(
    protocols: &P,
    proto: Proto,
    to: &Duet,
) -> Result<Items<HostId>, AllocError>
    ensures { IfOk result (λ hosts. hosts ≡ holders_among (P.offer protocols.now).calls proto) }
{
    let mut hosts = Items::new(to.alloc());
    for number in 0..protocols.hosts() {
        if is_holder(proto, HostId(number)) {
            hosts.push(HostId(number))?;
        }
    }
    Ok(hosts)
}
