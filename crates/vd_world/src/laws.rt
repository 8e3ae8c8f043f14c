ghost use Rattle.std.specs.Prelude.{◌≡◌, List};
ghost use Rattle.vd_execution.specs.Joint.{Joint, started};
ghost use Rattle.vd_machine.specs.Kept.{Kept};
ghost use Rattle.vd_world.specs.Hosts.{AreLoaded, hosts_at_start, world_of};
ghost use Rattle.vd_world.specs.Packets.{PacketsAreCounted};

/// Hosts whose machines were loaded with the code of a joint code stand at its start, from where the laws of schedules go.
pub fn worlds_start_at_their_joint_code()
    ensures { (machines : List Kept) (j : Joint) → AreLoaded machines j → world_of (hosts_at_start machines) ≡ started j }
{}

/// No packet is counted before the first step of the hosts of a joint code, and each step counts those that it sends.
pub fn packets_are_counted()
    ensures { PacketsAreCounted }
{}
