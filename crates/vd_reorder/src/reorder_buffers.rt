//! Hastened hosts over links that have room for so many packets: room for as many packets as the window is enough. Nothing is
//! computed here: the function's clauses are laws.

ghost use Rattle.vd_reorder.specs.Window.{RoomForTheWindowIsEnough, RoomForCarefulHostsIsEnough};

/// Hosts whose codes were hastened by any sound test, so that no instruction is passed by more packets than the window, come to the end
/// of the joint run over links that have room for so many packets: they never stand still because a link is full.
pub fn room_for_the_window_is_enough()
    ensures window { RoomForTheWindowIsEnough }
    ensures careful { RoomForCarefulHostsIsEnough }
{}
