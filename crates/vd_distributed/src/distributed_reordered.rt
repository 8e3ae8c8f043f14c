//! Hosts in an order that waits less, each driven by itself over its links. Nothing is computed here: the clauses are laws.

ghost use Rattle.vd_distributed.specs.Driven.{EarlyHostsHaveEnded, EarlyHostsTellTheSame};

/// Hosts whose codes are those that are stored of a joint code in an order that waits less, and which are driven over links on which what
/// comes is a prefix of what was sent there, write what the joint run in program order prints: a prefix of its decimal lines, and all of
/// them where they end. None blames another for a byte or for words that differ.
pub fn early_hosts_tell_the_same()
    ensures { EarlyHostsTellTheSame }
{}

/// Such hosts, where the lists suffice in program order, are never all waiting for packets that nobody will send.
pub fn early_hosts_have_ended()
    ensures { EarlyHostsHaveEnded }
{}
