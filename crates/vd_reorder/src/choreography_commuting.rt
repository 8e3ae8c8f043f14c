//! Joint code in another order: what hosts do together is exchanged where neither needs the other, before it is split, so that all hosts
//! get another order at once. Nothing is computed here: each function's clauses are laws.

ghost use Rattle.vd_reorder.specs.Turning.{TurnedCodeTellsTheSame, TurnedCodeIsTidy};
ghost use Rattle.vd_reorder.specs.ChoreographyCommutingNeighbours.{ActsApart, ActsAtOne, ActBesideMessage, MessageBesideAct, MessagesApart, ShownBesideAct, ShownBesideMessage};

/// Where neighbours in joint code are exchanged that may be, the hosts hold, have taken and have printed the same at its end: only the
/// order of packets on links may differ. What was tidy is so, and where compared words were the same and guards agreed they do.
pub fn turned_code_tells_the_same()
    ensures same { TurnedCodeTellsTheSame }
    ensures tidy { TurnedCodeIsTidy }
{}

/// Which neighbours may be exchanged: two acts of different hosts, and two of one host that need nothing of each other; an act and a
/// message that need nothing of each other; and two messages of which none fills a register that the other sends or fills. What is printed or
/// compared may stand on either side of what leaves its words.
pub fn neighbours_may_turn()
    ensures acts { ActsApart }
    ensures own { ActsAtOne }
    ensures act_message { ActBesideMessage }
    ensures message_act { MessageBesideAct }
    ensures messages { MessagesApart }
    ensures shown { ShownBesideAct }
    ensures shown_message { ShownBesideMessage }
{}
