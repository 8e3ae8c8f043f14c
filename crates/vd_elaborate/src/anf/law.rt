//! The let-normal form of a source has the same outputs to each host.

ghost use Rattle.std.specs.Prelude.{◌≡◌, ℕ, List};
ghost use Rattle.vd_core.specs.declared.source.Source.{Source as Tree};
ghost use Rattle.vd_semantics.specs.SourceMeaning.{source_outputs};
ghost use Rattle.vd_semantics.specs.ProgramMeaning.{program_outputs};
ghost use Rattle.vd_elaborate.specs.Normal.{normal_form};

/// Holds of every tree and of all inputs; nothing is computed.
pub fn outputs_are_kept()
    ensures { (source : Tree) (inputs : List (List ℕ)) → program_outputs (normal_form source) inputs ≡ source_outputs source inputs }
{}
