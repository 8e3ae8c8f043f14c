//! What holds of the counts along each run. The functions here do nothing: their contracts are laws.

ghost use Rattle.vd_rounds.specs.Clocks.{RoundsAreReadOff};
ghost use Rattle.vd_rounds.specs.Loads.{BytesAreCounted};
ghost use Rattle.vd_rounds.specs.TallyLaws.{HostsTellWithin, SchedulesTellWithin};

/// On any words that it receives, a host sends another one at most the packets and words counted with the greater block of each branch.
/// Once it has ended, it has sent at least the ones counted with the smaller block. Every schedule of all hosts has both bounds too.
pub fn hosts_tell_within()
    ensures alone { HostsTellWithin }
    ensures schedules { SchedulesTellWithin }
{}

/// In the joint run a packet arrives one round after it was sent. No clock ends above the count with the later block of each branch, or
/// below the count with the earlier one.
pub fn rounds_are_read_off()
    ensures { RoundsAreReadOff }
{}

/// The bytes of a greeting and of packets are the number counted from their packets and words.
pub fn bytes_are_counted()
    ensures { BytesAreCounted }
{}
