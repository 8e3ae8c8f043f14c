//! Laws of calls in which hosts depart from their programs. The functions here do nothing: the contract of each is a law.

ghost use Rattle.vd_integrity_runs.specs.Commitments.{CommitmentsBind};
ghost use Rattle.vd_integrity_runs.specs.Copies.{CopiesStayRight, OneWordIsRight};
ghost use Rattle.vd_integrity_runs.specs.Departing.{KeepersRunTogether};
ghost use Rattle.vd_integrity_runs.specs.Digests.{DigestsTellTheirWords};
ghost use Rattle.vd_integrity_runs.specs.IntegrityBackendsExample.{TwoWordsForOne};
ghost use Rattle.vd_integrity_runs.specs.Shares.{SharesAreKept};

/// Where each host that sends keeps to its program, the run is the joint run.
pub fn keepers_run_together()
    ensures { KeepersRunTogether }
{}

/// Words in clear, at one host or as copies at several, stay right at the hosts that keep to their programs, in each call of the back
/// end. Copies that are shown to a host are right as long as one holder keeps to its program.
pub fn copies_stay_right()
    ensures { CopiesStayRight }
{}

/// Where a host that departs hands one word to all holders of copies, that word is right from then on.
pub fn one_word_to_all_is_right()
    ensures { OneWordIsRight }
{}

/// The digest of a commitment is the SHA-256 of its nonce and word. Two that are the same are of one nonce and one word, or two texts are
/// at hand that differ and have one SHA-256.
pub fn digests_tell_their_words()
    ensures { DigestsTellTheirWords }
{}

/// Of a commitment the word that is shown is the one that it was made for, as long as one of the two hosts keeps to its program; or two
/// texts are at hand that differ and have one SHA-256.
pub fn commitments_bind()
    ensures { CommitmentsBind }
{}

/// In the calls of words that two hosts share, and in their conversions, no other host sends anything: where both keep to their programs,
/// all that send do.
pub fn shares_are_kept()
    ensures { SharesAreKept }
{}

/// A host that departs can hand any two words to two copies, and nobody compares them: the premise that it says one word is needed.
pub fn two_words_for_one()
    ensures { TwoWordsForOne }
{}
