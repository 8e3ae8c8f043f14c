//! What holds whatever becomes of a host. Nothing is computed here: the functions' clauses are laws.

ghost use Rattle.vd_host_session.specs.Laws.{FaultsHaveCauses, HostsAskInOrder, LimitsStay, LinksComeBack};

/// A net is asked for a prefix of a host's calls and for no other, and for all where the host ran to its end.
pub fn hosts_ask_in_order()
    ensures { HostsAskInOrder }
{}

/// A fault of a peer is answered only where the count of the net rose, and one of the output only where that of the sink did.
pub fn faults_have_causes()
    ensures { FaultsHaveCauses }
{}

/// Whatever becomes of a host, each link that it was given comes back to a net that tells them.
pub fn links_come_back()
    ensures { LinksComeBack }
{}

/// Whatever becomes of a host, no wait of it is longer than the limit that its net has at the start.
pub fn limits_stay()
    ensures { LimitsStay }
{}
