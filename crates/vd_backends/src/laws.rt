ghost use Rattle.vd_backends.specs.Offered.{ProgramsCanBeSplit};

/// The splitter can be asked for every well-made program at protocols over its hosts at which it is valid. Nothing is
/// computed here: the clause is a law.
pub fn programs_can_be_split()
    ensures { ProgramsCanBeSplit }
{}
