//! What holds of each net whose links are sealed, as laws.

ghost use Rattle.vd_channel_link.specs.Ledgers.{UnsentGreetAlone};
ghost use Rattle.vd_channel_link.specs.Letting.{HonestHostsAreLetIn, HonestHostsAreReached, HostsOfADealingMeet};

/// Where nothing was sent each link that was given came back, and no more than its greeting went out over it: a prefix of its first record.
pub fn unsent_links_greet_alone()
    ensures { UnsentGreetAlone }
{}

/// A host that comes to a listener, has the key of the link and says what an honest end says is turned away only where its link failed.
pub fn honest_hosts_are_let_in()
    ensures { HonestHostsAreLetIn }
{}

/// An earlier host that is asked for, has the key of the link and says what an honest end says is left only where its link failed.
pub fn honest_hosts_are_reached()
    ensures { HonestHostsAreReached }
{}

/// Two hosts of one dealing meet over links on each of which comes what goes out over the other, whatever each drew for its run.
pub fn hosts_of_a_dealing_meet()
    ensures { HostsOfADealingMeet }
{}
