//! Laws of what a host learns. The functions here do nothing: the contract of each is a law.

ghost use Rattle.std.specs.Prelude.{ℕ, Bool};
ghost use Rattle.vd_base.specs.declared.ids.HostId.{HostId};
ghost use Rattle.vd_constraints.specs.declared.labels.Labels.{Labels};
ghost use Rattle.vd_core.specs.declared.normal.NormalForm.{NormalForm};
ghost use Rattle.vd_core.specs.Facts.{IsWellMade};
ghost use Rattle.vd_noninter.specs.Reading.{becomes_readable_to, reads_host, in_view, LearnsOnly, NamesVisible};
ghost use Rattle.vd_noninter.specs.NoninterLawsDependence.{AreReached, AreReadable, AreEnough, IsSingle, OfEachHost};

/// Two families of inputs that agree on the hosts that a host may read, and on the words that become readable to it by a
/// declassification, give it the same outputs, and the same words of all slots in its view.
pub fn inputs_that_agree_tell_the_same()
    ensures { OfEachHost (λ p l h. LearnsOnly p h (becomes_readable_to p l h) (reads_host p h) (in_view p l h)) }
{}

/// The hosts whose inputs are reached from a host's outputs are among those that it may read, and agreement on their
/// inputs is enough.
pub fn reached_hosts_are_enough()
    ensures readable { OfEachHost (λ p l h. (hosts : ℕ → Bool) → AreReached p l h hosts → AreReadable p h hosts) }
    ensures enough { OfEachHost (λ p l h. (hosts : ℕ → Bool) → AreReached p l h hosts → AreEnough p l h hosts) }
{}

/// Of each program, labelling and host there is at most one set of hosts whose inputs are reached.
pub fn reached_hosts_are_single()
    ensures { (p : NormalForm) (l : Labels) (h : HostId) → IsSingle (AreReached p l h) }
{}

/// Under guards that a host may read, whatever a statement names is made under such guards: what the host may read of it
/// is in its view.
pub fn what_is_named_is_visible()
    ensures { (p : NormalForm) (test : ℕ → Bool) → IsWellMade p → NamesVisible p test }
{}
