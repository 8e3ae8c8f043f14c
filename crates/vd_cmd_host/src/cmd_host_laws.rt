//! When a host ends well. Nothing is computed here: the clauses of the function are laws.

ghost use Rattle.vd_cmd_host.specs.Instance.{EqualWordsAreEnough};
ghost use Rattle.vd_cmd_host.specs.Serving.{ServedHostsEndWell};

/// A host whose files are good, whose peers greet as they should, and to whom comes all that it wants, ends with status 0 or
/// is out of memory, unless something outside fails.
pub fn served_hosts_end_well()
    ensures { ServedHostsEndWell }
{}

/// An instance of what is asked there: a host that takes a word from a peer, and another, and compares them, has all that it
/// wants where the same word comes twice.
pub fn equal_words_are_enough()
    ensures { EqualWordsAreEnough }
{}
