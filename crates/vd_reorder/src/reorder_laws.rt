//! Hosts whose sends were brought forward: neighbours in a host's code are exchanged where neither needs the other, as in the
//! scheduling of instructions, and its peers need not know. Nothing is computed here: each function's clauses are laws.

ghost use Rattle.vd_reorder.specs.Hastening.{HastenedHostsAreOnTheWay, HastenedHostsAreNeverShort, HastenedHostsEnd};
ghost use Rattle.vd_reorder.specs.Neighbours.{SendBeforeReceive, SendBeforeSend, SendBeforeAction, SendBeforePrint};
ghost use Rattle.vd_reorder.specs.Neighbours.{ActionBeforeReceive, ActionBeforeSend, ActionBeforePrint, ActionBeforeAction};
ghost use Rattle.vd_reorder.specs.ReorderLawsPassing.{PassesExchange};
ghost use Rattle.vd_reorder.specs.ReorderLawsTesting.{TestIsSound, EachCodeIsHastened, OpeningsAreHastened, DigestsAreHastened, BlocksArePassed};
ghost use Rattle.vd_reorder.specs.Careful.{CarefulPasses, OpenedWordsStay, HastenedStartsAreOnTheWay, HastenedStartsEnd};

/// Hosts in whose codes neighbours were exchanged do what they did: under every schedule they are on the way to the end of the joint
/// run, and where the lists suffice for it none is ever short, and they come to that end.
pub fn hastened_hosts_are_on_the_way()
    ensures on_the_way { HastenedHostsAreOnTheWay }
    ensures never_short { HastenedHostsAreNeverShort }
    ensures ended { HastenedHostsEnd }
{}

/// Which neighbours may be exchanged: a packet goes before a receive, before a packet to another peer, before an action that leaves
/// its words, and before a printed word; an action goes before a receive, a packet, a printed word and another action.
pub fn neighbours_may_be_exchanged()
    ensures send_receive { SendBeforeReceive }
    ensures send_send { SendBeforeSend }
    ensures send_action { SendBeforeAction }
    ensures send_print { SendBeforePrint }
    ensures action_receive { ActionBeforeReceive }
    ensures action_send { ActionBeforeSend }
    ensures action_print { ActionBeforePrint }
    ensures action_action { ActionBeforeAction }
{}

/// What the pass gives of a code is reached by exchanges, whatever sound test and whatever window on sends it goes by.
pub fn passes_exchange()
    ensures { PassesExchange }
{}

/// The test by registers and lists says yes only where neighbours may be exchanged, so the pass that goes by it hastens each code. Blocks
/// without messages are passed as one.
pub fn each_code_is_hastened()
    ensures sound { TestIsSound }
    ensures hastened { EachCodeIsHastened }
    ensures openings { OpeningsAreHastened }
    ensures digests { DigestsAreHastened }
    ensures blocks { BlocksArePassed }
{}

/// The careful pass hastens each code, and leaves all that is to stay in its order: so a committed word is not opened before what it
/// stood behind.
pub fn careful_passes_keep_the_order()
    ensures order { CarefulPasses }
    ensures opened { OpenedWordsStay }
{}

/// The hosts of a joint code, each with its code hastened by the careful pass, come to the end of the joint run under every schedule.
pub fn hastened_starts_come_to_their_end()
    ensures on_the_way { HastenedStartsAreOnTheWay }
    ensures ended { HastenedStartsEnd }
{}
