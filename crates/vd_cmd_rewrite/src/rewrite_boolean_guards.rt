//! The guards of resolved sources are 0 or 1. The function here does nothing: its contract is a law.

ghost use Rattle.vd_core.specs.declared.source.Source.{Source};
ghost use Rattle.vd_mux.specs.BooleanGuards.{HasBooleanGuards};
ghost use Rattle.vd_elaborate.specs.Normal.{normal_form};
ghost use Rattle.vd_resolve.specs.Limits.{IsResolved};

/// In the let-normal form of a source that meets every rule, each guard has the kind Bool, and what goes into slots of that kind
/// is 0 or 1. So no such source keeps a hidden branch because its guard might be another word.
pub fn resolved_sources_have_boolean_guards()
    ensures { (source : Source) → IsResolved source → HasBooleanGuards (normal_form source) }
{}
