//! Laws of one host among others that may send it anything. The functions here do nothing: the contract of each is a law.

ghost use Rattle.vd_integrity_runs.specs.Alone.{AnswersMayBe, StepsHear};
ghost use Rattle.vd_integrity_runs.specs.Passing.{ComparedAreEqual, OpenedHasTheDigest, ShownAreEqual};

/// Whatever a host is given at a step may be what it needs: so what is said of all that it may be given is said of its machine.
pub fn hosts_get_what_they_may()
    ensures { AnswersMayBe }
{}

/// So is a run of a host over its links: each step is on words that it may be given.
pub fn steps_hear()
    ensures { StepsHear }
{}

/// A host that came past the comparisons of some registers has the same word in each.
pub fn copies_are_compared()
    ensures { ComparedAreEqual }
{}

/// A host that was shown copies, and came past its comparisons, was told the same word by each holder.
pub fn shown_copies_are_equal()
    ensures { ShownAreEqual }
{}

/// A host to which a commitment was opened, and that came past its comparisons, got a word and a nonce with the digest that it kept.
pub fn openings_bind()
    ensures { OpenedHasTheDigest }
{}
