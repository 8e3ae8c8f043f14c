//! What hosts send each other where joint code was brought forward, and when. Nothing is computed here: the clauses are laws.

ghost use Rattle.vd_choreography_reorder.specs.Packets.{CodeThatIsBroughtForwardSendsTheSame, PacketsAreKept};
ghost use Rattle.vd_choreography_reorder.specs.Waiting.{NothingIsToldEarlier};

/// Wherever careful exchanges lead, and so in the code that the pass gives, each host sends each other one the same packets, each as often:
/// only their order may differ.
pub fn packets_are_kept()
    ensures kept { PacketsAreKept }
    ensures forward { CodeThatIsBroughtForwardSendsTheSame }
{}

/// Wherever careful exchanges lead, a host compares, prints or opens nothing before a packet behind which it did.
pub fn nothing_is_told_earlier()
    ensures { NothingIsToldEarlier }
{}
