//! That every program has a dependence and an influence. The functions here do nothing: the contract of each is the law.

ghost use Rattle.std.specs.Prelude.{Bool};
ghost use Rattle.vd_base.specs.declared.ids.HostId.{HostId};
ghost use Rattle.vd_constraints.specs.declared.labels.Labels.{Labels};
ghost use Rattle.vd_core.specs.declared.normal.NormalForm.{NormalForm};
ghost use Rattle.vd_core.specs.Facts.{IsWellMade};
ghost use Rattle.vd_noninter.specs.NoninterLawsDependence.{IsDependence, Reach};
ghost use Rattle.vd_noninter.specs.IntegrityLawsInfluence.{IsInfluence};

/// A host's outputs reach some slots and some hosts' inputs, in every well-made program, whatever its labels are: there is a least
/// choice of them that is closed.
pub fn programs_have_dependences()
    ensures { (p : NormalForm) (l : Labels) (h : HostId) → IsWellMade p → (r : Reach) × IsDependence p l h r }
{}

/// What is output to a host reaches some slots and some hosts' inputs, in every well-made program, whether endorsements are passed or not.
pub fn programs_have_influences()
    ensures { (passed : Bool) (p : NormalForm) (h : HostId) → IsWellMade p → (r : Reach) × IsInfluence passed p h r }
{}
