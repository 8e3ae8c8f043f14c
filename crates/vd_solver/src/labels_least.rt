//! Each system of rules and checks comes to one outcome: its least labelling, or the first check that fails.
//! The functions here do nothing: the contract of each is a law.

ghost use Rattle.std.specs.Prelude.{◌≡◌, ℕ, Result};
ghost use Rattle.vd_constraints.specs.Outcomes.{IsLabelled};
ghost use Rattle.vd_constraints.specs.Systems.{Constraints, IsSystem};
ghost use Rattle.vd_constraints.specs.declared.labels.Labels.{Labels};

/// No system has two outcomes.
pub fn labellings_are_single()
    ensures { (s : Constraints) (a b : Result Labels ℕ) → IsLabelled s a → IsLabelled s b → a ≡ b }
{}

/// Every system has an outcome.
pub fn labellings_are_total()
    ensures { (s : Constraints) → IsSystem s → (outcome : Result Labels ℕ) × IsLabelled s outcome }
{}
