//! What is true of barriers. Nothing is computed.

ghost use Rattle.std.specs.Prelude.{◌≡◌, not, is_some, List, Bool};
ghost use Rattle.vd_base.specs.declared.ids.SlotId.{SlotId};
ghost use Rattle.vd_core.specs.declared.normal.Slot.{Slot};
ghost use Rattle.vd_core.specs.declared.normal.Stmt.{Stmt};
ghost use Rattle.vd_rewrite.specs.Rewriting.{Lets, rewriting};
ghost use Rattle.vd_diag_terminal.specs.Barriers.{barrier_of};

/// A statement has a barrier exactly where it is not pure.
pub fn barriers_are_what_is_not_pure()
    ensures { (hides : SlotId → Bool) (lets : Lets) (old : List Slot) (s : Stmt) →
        is_some (barrier_of s) ≡ not ((rewriting hides lets old s).is_pure) }
{}
