//! The flow rules and checks of every program, and of every source that is resolved, are a system.
//! The functions here do nothing: the contract of each is a law.

ghost use Rattle.vd_constraints.specs.Rules.{system_of};
ghost use Rattle.vd_constraints.specs.Systems.{IsSystem};
ghost use Rattle.vd_core.specs.Facts.{IsWellMade};
ghost use Rattle.vd_core.specs.Named.{HasNames};
ghost use Rattle.vd_core.specs.declared.normal.NormalForm.{NormalForm};
ghost use Rattle.vd_core.specs.declared.source.Source.{Source};
ghost use Rattle.vd_elaborate.specs.Normal.{normal_form};
ghost use Rattle.vd_resolve.specs.Limits.{IsResolved};

/// What a well-made program asks of its labels is a system: its rules and checks are few, and speak of the program's own
/// slots, blocks and principals.
pub fn programs_have_systems()
    ensures { (program : NormalForm) → IsWellMade program → IsSystem (system_of program) }
{}

/// So is what the let-normal form of a resolved source asks, where principals and hosts have names, as those of a parsed
/// source have.
pub fn resolved_sources_have_systems()
    ensures { (source : Source) → IsResolved source → HasNames source → IsSystem (system_of (normal_form source)) }
{}
