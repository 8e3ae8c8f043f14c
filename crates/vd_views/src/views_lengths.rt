//! What who is on the way learns: how long the packets of hosts are. Nothing is computed here: each function's clauses are laws.

ghost use Rattle.vd_views.specs.OnTheWay.{LengthsFollowCode, LengthsFollowPrograms, LengthsTellWays};

/// Where nobody sends in a branch, the lengths of all packets that a host sends another one, in order, are a function of the
/// program alone, whatever the inputs, the deal and the schedule are. Where hosts do send in branches, two runs that take the same
/// way at each of these send packets of the same lengths: so the lengths tell these ways, and nothing else.
pub fn lengths_tell_ways_alone()
    ensures code { LengthsFollowCode }
    ensures programs { LengthsFollowPrograms }
    ensures ways { LengthsTellWays }
{}
