//! Laws of the clear words that come to a host at a valid assignment of protocols. The functions here do nothing: the
//! contract of each is a law.

ghost use Rattle.std.specs.Prelude.{ℕ, Bool};
ghost use Rattle.vd_noninter_protocols.specs.Assigned.{HearsOnlyAssigned};
ghost use Rattle.vd_noninter_protocols.specs.Example.{WorkedWords};
ghost use Rattle.vd_noninter_protocols.specs.Learning.{NewWordsTellAll};
ghost use Rattle.vd_noninter.specs.NoninterLawsDependence.{AreReached, OfEachHost};
ghost use Rattle.vd_noninter.specs.Reading.{becomes_readable_to, reads_host, reads_result};

/// Two families of inputs that agree on the hosts that a host may read, and on the words that become readable to it by a
/// declassification, bring it the same clear words, at every valid assignment.
pub fn inputs_that_agree_bring_the_same()
    ensures { OfEachHost (λ p l h. HearsOnlyAssigned p l h (becomes_readable_to p l h) (reads_host p h)) }
{}

/// Agreement on the hosts whose inputs are reached from a host's outputs, and on all that is declassified to it, is enough
/// for that.
pub fn reached_hosts_are_enough_assigned()
    ensures { OfEachHost (λ p l h. (hosts : ℕ → Bool) → AreReached p l h hosts → HearsOnlyAssigned p l h (reads_result p l h) hosts) }
{}

/// Two families of inputs that agree on a host, and under which the same new words come to it in clear, bring it the same clear
/// words. A word is new where the host does not have it in clear where it comes from.
pub fn new_words_tell_all()
    ensures { NewWordsTellAll }
{}

/// Of a comparison in shares, declassified to copies, its word comes to a host twice; of a variable that is set under a
/// guard, the guard and the variable.
pub fn worked_words()
    ensures { WorkedWords }
{}
