//! Hosts over links that have room for so many packets: a host that sends on a full link waits. Nothing is computed here: each
//! function's clauses are laws.

ghost use Rattle.vd_execution.specs.Room.{NarrowCommutes, NarrowHasOneEnd, RoomForOneIsEnough};

/// The steps of two hosts commute over such links too, so all schedules that leave no host able to step end in one world, after equally
/// many steps (confluence).
pub fn narrow_links_commute()
    ensures commute { NarrowCommutes }
    ensures one_end { NarrowHasOneEnd }
{}

/// Compiled hosts come to the end of the joint run over links that have room for one packet or more: they never stand still because a
/// link is full.
pub fn room_for_one_is_enough()
    ensures { RoomForOneIsEnough }
{}
