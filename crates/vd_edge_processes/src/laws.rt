//! Which child a run names. The function here does nothing: its contract is a law.

ghost use Rattle.vd_edge_processes.specs.Turns.{CausesComeFirst};

/// Of two children that ended with faults the one is named whose fault is a cause: not the one whose link was ended, nor, before
/// any other, the one that blames its peer.
pub fn causes_come_first()
    ensures { CausesComeFirst }
{}
