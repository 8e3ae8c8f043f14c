//! Laws of authorities, and of what stands where at a valid assignment. The functions here do nothing: the contract of each is a law.

ghost use Rattle.vd_noninter.specs.Trust.{OfEachProgram};
ghost use Rattle.vd_noninter_protocols.specs.IntegrityAssignedAssigned.{GuardsAreTold, WordsAreGuarded};
ghost use Rattle.vd_noninter_protocols.specs.Keeping.{AuthoritiesAreExact};

/// The authority of a protocol is exactly that of the hosts on which the word that stands there depends, and of those who see it.
pub fn authorities_are_exact()
    ensures { AuthoritiesAreExact }
{}

/// At a valid assignment a word for which principals cannot act stands where the hosts for which they cannot act keep it, and one that
/// they may not read where the hosts whose secrets they may read do not see it.
pub fn words_stand_where_they_are_kept()
    ensures { OfEachProgram (λ p l. WordsAreGuarded p l) }
{}

/// A guard for which principals cannot act is kept from them too, and each host that takes part in its branches is told it.
pub fn guards_are_told_where_they_are_kept()
    ensures { OfEachProgram (λ p l. GuardsAreTold p l) }
{}
