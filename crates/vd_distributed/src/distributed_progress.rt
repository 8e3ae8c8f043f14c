//! What hosts ask of their peers, and that these give it. Nothing is computed here: the clauses are laws.

ghost use Rattle.vd_distributed.specs.Serving.{OthersSendEnough, StoredHostsAreServed};

/// Where the lists of all hosts suffice, what the others send a host in the joint run is all that it wants, wherever its own steps
/// lead. So what is asked of each peer of a host that is to end well is what these peers give.
pub fn others_send_enough()
    ensures { OthersSendEnough }
{}

/// The same of each host of a program as it is stored, on its own inputs and its own deal.
pub fn stored_hosts_are_served()
    ensures { StoredHostsAreServed }
{}
