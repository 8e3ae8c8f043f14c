//! What is true of selections. Nothing is computed.

ghost use Rattle.std.specs.Prelude.{◌≡◌, ℕ, List, Bool};
ghost use Rattle.vd_base.specs.declared.ids.SlotId.{SlotId};
ghost use Rattle.vd_core.specs.declared.normal.NormalForm.{NormalForm};
ghost use Rattle.vd_core.specs.Facts.{IsWellMade};
ghost use Rattle.vd_semantics.specs.ProgramMeaning.{program_outputs};
ghost use Rattle.vd_mux.specs.BooleanGuards.{HasBooleanGuards};
ghost use Rattle.vd_mux.specs.Branches.{AllHiddenBranchesGo};
ghost use Rattle.vd_mux.specs.Selections.{turned_where_boolean};
ghost use Rattle.vd_mux.specs.Selections.{turned};

/// Whichever guards are hidden, hidden branches as selections leave the outputs to each host, in every program that is well
/// made and has boolean guards, and for all inputs.
pub fn selections_keep_outputs()
    ensures { (hides : SlotId → Bool) (program : NormalForm) → IsWellMade program → HasBooleanGuards program →
        (inputs : List (List ℕ)) → program_outputs (turned hides program) inputs ≡ program_outputs program inputs }
{}

/// The same of every program that is well made: one whose guards may be other words stays as it is.
pub fn turning_keeps_outputs()
    ensures { (hides : SlotId → Bool) (program : NormalForm) → IsWellMade program → (inputs : List (List ℕ)) →
        program_outputs (turned_where_boolean hides program) inputs ≡ program_outputs program inputs }
{}

/// A program with selections in the place of hidden branches is well made.
pub fn selections_are_well_made()
    ensures { (hides : SlotId → Bool) (program : NormalForm) → IsWellMade program → IsWellMade (turned hides program) }
{}

/// A branch on what no host may read is gone after the turn, where its statements need no host's act, all guards are boolean and
/// the new program keeps to the limits. The branches that are left are the others, in their order.
pub fn hidden_branches_go()
    ensures { AllHiddenBranchesGo }
{}
