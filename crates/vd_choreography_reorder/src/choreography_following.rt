//! Joint code in which known words are left out, and others have registers of their own. Nothing is computed here: the clauses are laws.

ghost use Rattle.vd_choreography_reorder.specs.Following.{ActsAreRenamed, ArraysAreRenamed, ConstantsAreKnown, CopiesAreFollowed, FollowedCodeTellsTheSame, MessagesAreRenamed};

/// Where one code follows another, act by act and with the words of the one at known places of the other, all hosts take, print and send
/// the same, packet by packet, and what ran smoothly does.
pub fn followed_code_tells_the_same()
    ensures { FollowedCodeTellsTheSame }
{}

/// What follows: a constant and a copy may be left out. What an act or a message reads may stand in other registers, and what it fills in any
/// that are free.
pub fn words_are_followed()
    ensures constants { ConstantsAreKnown }
    ensures copies { CopiesAreFollowed }
    ensures acts { ActsAreRenamed }
    ensures messages { MessagesAreRenamed }
    ensures arrays { ArraysAreRenamed }
{}
