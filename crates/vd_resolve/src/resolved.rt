//! A source that has no fault.

ghost use Rattle.std.specs.Prelude.{◌≡◌};
ghost use Rattle.vd_core.specs.Named.{HasNames};
ghost use Rattle.vd_resolve.specs.Limits.{IsResolved};

use std::marker::Model;
use vd_core::Source;

/// A source with names that keeps every rule on names, kinds and limits.
#[derive(Drop)]
pub struct Resolved {
    source: Source,
}

impl Model for Resolved {
    ghost use Rattle.vd_core.specs.declared.source.Source.{Source as Tree};
    ghost use Rattle.vd_core.specs.contracts.source.Source as tree_contract;
    ghost use Rattle.vd_core.specs.Named.{HasNames as Named};
    ghost use Rattle.vd_resolve.specs.Limits.{IsResolved as Holds};

    ghost Value = { Tree };

    ghost coded = { tree_contract.the_row.coded };

    ghost view = { λ resolved. resolved.source };

    ghost invariant = { λ resolved. ∥ Holds resolved.source ∥₁ × Named resolved.source };
}

impl Resolved {
    pub(crate) fn new(source: Source) -> Self
        requires resolved { IsResolved source }
        requires named { HasNames source }
        ensures { result ≡ source }
    {
        Resolved { source }
    }

    /// The source, with its names, which has no fault.
    pub fn source(&self) -> &Source
        ensures same { result.now ≡ self.now }
        ensures resolved { IsResolved self.now }
        ensures named { HasNames self.now }
    {
        &self.source
    }
}
