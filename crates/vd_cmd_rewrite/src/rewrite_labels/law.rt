//! What is true of the labels of a program with selections. Nothing is computed.

ghost use Rattle.std.specs.Prelude.{◌<◌, Bool, length};
ghost use Rattle.vd_base.specs.declared.ids.SlotId.{SlotId};
ghost use Rattle.vd_constraints.specs.declared.labels.Labels.{Labels};
ghost use Rattle.vd_constraints.specs.declared.system.Place.TheVariants.{Slot};
ghost use Rattle.vd_constraints.specs.Rules.{system_of};
ghost use Rattle.vd_constraints.specs.Satisfies.{label_at, Satisfies, IsLeast};
ghost use Rattle.vd_core.specs.declared.normal.NormalForm.{NormalForm};
ghost use Rattle.vd_core.specs.Facts.{IsWellMade};
ghost use Rattle.vd_mux.specs.Selections.{with_selections, turned_where_boolean};
ghost use Rattle.vd_cmd_rewrite.specs.TurnedLabels.{KeepsLabels, CanBeLabelled, LabelActsFor, new_slot};

/// Whichever branches become selections, a labelling that satisfies the program leads to one that satisfies the program with
/// selections, and each slot of the program has the same label in both.
pub fn selections_keep_labels()
    ensures { (hides : SlotId → Bool) (program : NormalForm) (labels : Labels) → IsWellMade program →
        Satisfies (system_of program) labels → KeepsLabels hides program labels }
{}

/// So a program that flows goes on to flow once its hidden branches are turned.
pub fn turned_programs_can_be_labelled()
    ensures { (hides : SlotId → Bool) (program : NormalForm) (labels : Labels) → IsWellMade program →
        Satisfies (system_of program) labels → CanBeLabelled (system_of (turned_where_boolean hides program)) }
{}

/// And no slot's least label becomes more secret or less trusted: both its parts act for those that it has then.
pub fn least_labels_do_not_rise()
    ensures { (hides : SlotId → Bool) (program : NormalForm) (labels new : Labels) → IsWellMade program →
        IsLeast (system_of program) labels → IsLeast (system_of (with_selections hides program)) new →
        (x : SlotId) → x.0 < length program.slots →
        LabelActsFor (label_at labels (Slot x)) (label_at new (Slot (new_slot hides program x))) }
{}
