ghost use Rattle.std.specs.Prelude.{◌≡◌, ◌<◌, ◌≤◌, IsTrue, IfOk, OnOk, length};
ghost use Rattle.std.specs.List.{list_all};
ghost use Rattle.vd_base.specs.Limits.{most_hosts};
ghost use Rattle.vd_base.specs.Holders.{holders};
ghost use Rattle.vd_duet.specs.Builder.{TakesAtMost, TakesFew};
ghost use Rattle.vd_duet.specs.Laws.{Each};
ghost use Rattle.vd_split.specs.Lines.{Makes};
ghost use Rattle.vd_split.specs.Offer.{IsReady, has_parts};
ghost use Rattle.vd_split.specs.Places.{slot_moved, slot_delivered_onto, moved_onto};

use crate::protocols::Protocols;
use crate::slots::parts_of;
use std::alloc::AllocError;
use vd_base::{HostId, Items, Proto, SlotId, proto_of};
use vd_duet::Duet;

/// The move of a slot's word to a protocol.
pub(crate) fn move_slot<P: Protocols>(
    protocols: &P,
    protos: &[Proto],
    held: &Items<P::Parts>,
    slot: SlotId,
    onto: Proto,
    to: &mut Duet,
) -> Result<P::Parts, AllocError>
    requires ready { IsReady (P.offer protocols.now) protos.now held.now 0 to.old.next }
    requires slot { slot.0 < length held.now }
    requires onto { IsTrue ((P.offer protocols.now).has onto) }
    ensures exact { IfOk result (λ x. Makes (slot_moved (P.offer protocols.now).calls protos.now held.now slot onto) to.old x to.new) }
    ensures placed { IfOk result (λ x. (P.offer protocols.now).hosts_at onto x ≡ holders onto) }
    ensures few { OnOk result (TakesFew to.old.next to.new.next) }
{
    protocols.bring(
        proto_of(protos, slot),
        onto,
        parts_of(protocols, held, slot),
        to,
    )
}

/// The move of a slot's word to each of these hosts, in clear.
pub(crate) fn deliver<P: Protocols>(
    protocols: &P,
    protos: &[Proto],
    held: &Items<P::Parts>,
    slot: SlotId,
    hosts: &[HostId],
    to: &mut Duet,
) -> Result<Items<(u8, u32)>, AllocError>
    requires ready { IsReady (P.offer protocols.now) protos.now held.now 8192 to.old.next }
    requires slot { slot.0 < length held.now }
    requires hosts { Each (λ h. h.0 < (P.offer protocols.now).calls.hosts) hosts.now }
    requires few { length hosts.now ≤ most_hosts }
    ensures exact { IfOk result (λ at. (at, to.new) ≡ slot_delivered_onto (P.offer protocols.now).calls protos.now held.now slot
        hosts.now to.old) }
    ensures few { OnOk result (TakesAtMost 8192 to.old.next to.new.next) }
{
    let mut index = Items::new(to.alloc());
    for host in hosts {
        let moved = move_slot(protocols, protos, held, slot, Proto::Local(*host), to)?;
        index.push((host.0, protocols.register(&moved, *host)))?;
    }
    Ok(index)
}

/// The moves of operands, from left to right.
pub(crate) fn move_all<P: Protocols>(
    protocols: &P,
    protos: &[Proto],
    held: &Items<P::Parts>,
    slots: &[SlotId],
    onto: Proto,
    to: &mut Duet,
) -> Result<Items<P::Parts>, AllocError>
    requires ready { IsReady (P.offer protocols.now) protos.now held.now 8192 to.old.next }
    requires slots { IsTrue (list_all (has_parts (length held.now)) slots.now) }
    requires onto { IsTrue ((P.offer protocols.now).has onto) }
    requires few { length slots.now ≤ 4 }
    ensures exact { IfOk result (λ moved. (moved, to.new) ≡ moved_onto (P.offer protocols.now).calls protos.now onto held.now
        slots.now to.old) }
    ensures as_many { IfOk result (λ moved. length moved ≡ length slots.now) }
    ensures few { OnOk result (TakesAtMost 8192 to.old.next to.new.next) }
{
    let mut all = Items::new(to.alloc());
    for slot in slots {
        let moved = move_slot(protocols, protos, held, *slot, onto, to)?;
        all.push(moved)?;
    }
    Ok(all)
}
