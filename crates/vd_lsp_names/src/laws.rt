//! What is in sight of a name. The function here does nothing: its contract is a law.

ghost use Rattle.vd_lsp_names.specs.Sights.{SightsAreTheResolvers};

/// What is in sight of a name is what the resolver has in sight there, declared at the same place.
pub fn sights_are_the_resolvers()
    ensures { SightsAreTheResolvers }
{}
