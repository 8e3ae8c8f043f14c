//! What holds of the calls. Nothing is computed here: each function's clauses are laws.

ghost use Rattle.vd_clear.specs.Law.{OneHostIsABackend, CopiesAreABackend, SpreadKeepsTheWord, SpreadActsWhereItSays};

/// The calls of one host do what those of a back end are to do, and act where they are said to.
pub fn one_host_is_a_back_end()
    ensures { OneHostIsABackend }
{}

/// So do the calls of copies at a set of hosts.
pub fn copies_are_a_back_end()
    ensures { CopiesAreABackend }
{}

/// Copies that are spread to another set of hosts stand for the same word; each new host and all that tell it act.
pub fn spread_keeps_the_word()
    ensures word { SpreadKeepsTheWord }
    ensures acts { SpreadActsWhereItSays }
{}
