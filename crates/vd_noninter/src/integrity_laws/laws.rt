//! Laws of what hosts can change. The functions here do nothing: the contract of each is a law.

ghost use Rattle.std.specs.Prelude.{Bool, false, ℕ, ◌^◌, ◌<◌, length};
ghost use Rattle.vd_formula.specs.TruthTable.{TruthTable};
ghost use Rattle.vd_base.specs.declared.ids.HostId.{HostId};
ghost use Rattle.vd_core.specs.declared.normal.NormalForm.{NormalForm};
ghost use Rattle.vd_noninter.specs.NoninterLawsDependence.{IsSingle, OfEachHost};
ghost use Rattle.vd_noninter.specs.IntegrityLawsInfluence.{AreEnoughToTell, AreInfluences, AreNested, AreTrusted, OfEachInfluence};
ghost use Rattle.vd_noninter.specs.Trust.{IsTrust, IsKept, IsRobust, IsTransparent, OfEachProgram, OfEachTrust, for_formula, against};

/// Two families of inputs that agree on the trusted hosts, and under which the same words become trusted, give each
/// trusted host the same outputs, and the same words to all trusted slots under trusted guards.
pub fn trusted_words_are_kept()
    ensures { OfEachTrust (λ p l T. IsKept p l T) }
{}

/// Whoever trusts a formula, or counts some principals as attackers, trusts in this sense.
pub fn who_trusts()
    ensures formulas { (n : ℕ) (t : TruthTable) → IsTrust n (for_formula t) }
    ensures attackers { (n set : ℕ) → set < 2 ^ n → IsTrust n (against set) }
{}

/// Principals that could not read the operand of a declassification choose neither the word nor whether it is made, but
/// through endorsements whose result they cannot act for.
pub fn declassifications_are_robust()
    ensures { OfEachProgram (λ p l. (set : ℕ) → set < 2 ^ length p.principals → IsRobust p l set) }
{}

/// No endorsement makes a word trusted that principals could have given who cannot read it, and who cannot act for the result.
pub fn endorsements_are_transparent()
    ensures { OfEachProgram (λ p l. (set : ℕ) → set < 2 ^ length p.principals → IsTransparent p l set) }
{}

/// The hosts whose inputs can bear on a host's outputs are enough to compute them, and there is one set of them: with
/// endorsements passed; and without, where the same words are endorsed. The second set is within the first.
pub fn influences_tell()
    ensures enough { OfEachInfluence (λ passed p h hosts. AreEnoughToTell passed p h hosts) }
    ensures single { (passed : Bool) (p : NormalForm) (h : HostId) → IsSingle (AreInfluences passed p h) }
    ensures nested { (p : NormalForm) (h : HostId) → AreNested p h }
{}

/// Each host whose inputs bear on a host's outputs, other than through endorsements, has an integrity that acts for its own.
pub fn influences_are_trusted()
    ensures { OfEachHost (λ p l h. (hosts : ℕ → Bool) → AreInfluences false p h hosts → AreTrusted p h hosts) }
{}
