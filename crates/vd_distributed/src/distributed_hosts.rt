//! All hosts of a joint code, each driven by itself over its links: packets, and the bytes of which they are made. Nothing is
//! computed here: the clauses are laws.

ghost use Rattle.vd_distributed.specs.AllHosts.{DrivenHostsAreTold, WaitingHostsHaveEnded};
ghost use Rattle.vd_distributed.specs.Linked.{LinkedHostsTellTheSame};

/// Hosts that are driven by themselves, each on packets that its peers sent to it, in order, and of which any have hastened codes, print
/// what the joint run prints: a prefix of it, and all of it where they have ended. None comes to compared words that differ.
pub fn driven_hosts_are_told()
    ensures { DrivenHostsAreTold }
{}

/// Such hosts, where their lists suffice, are never all waiting for packets that nobody will send.
pub fn waiting_hosts_have_ended()
    ensures { WaitingHostsHaveEnded }
{}

/// Hosts that are driven over links on which what comes is a prefix of what was sent there, and of which any have hastened codes, write
/// what the joint run prints: a prefix of its decimal lines, and all of them where they end. None blames another for a byte or for words
/// that differ.
pub fn linked_hosts_tell_the_same()
    ensures { LinkedHostsTellTheSame }
{}
